// Runs the calls on stored cases and compares each answer with the stored one. For each family it prints how many cases there are
// and how many differ; then what the reader answers at the sizes around a source's limit.
#![tactic(auto)]

use cases::Fields;
use facts::Refusal;
use std::io;
use std::rt::Files;

// An answer of two numbers, in bytes.
const PAIR: usize = 8;

// The most bytes of a case's area.
const AREA: usize = 20000;

// What the mapper's area holds before the call.
const FILL: u8 = 165;

// The most bytes of a file of cases, and of the file of inputs.
const FILE_LIMIT: usize = 300000;

const INPUTS_LIMIT: usize = 200000;

// Whether a stored answer of two numbers is this one.
fn is_pair(answer: &[u8], number: u32, place: u32) -> bool {
    answer.len() == PAIR && cases::numbers(answer) == [number, place]
}

// Whether a stored answer is that of these checks.
fn is_checked(answer: &[u8], checked: Result<(), Refusal>) -> bool {
    match checked {
        Ok(()) => is_pair(answer, 0, 0),
        Err(refusal) => is_pair(answer, refusal.check.number(), refusal.place),
    }
}

// Each function below reads one case of a family and tells whether the call agrees with it; None where the file ends before the case
// does.

// A case of the reader: source; answer.
fn reader_agrees(case: &mut Fields<'_>) -> Option<bool> {
    let source = case.next()?;
    let answer = case.next()?;
    Some(is_checked(answer, netlist::check_source(source)))
}

// A case of the record view: source, mapped, index; part.
fn record_view_agrees(case: &mut Fields<'_>) -> Option<bool> {
    let source = case.next()?;
    let mapped = case.next()?;
    let [index] = cases::numbers::<1>(case.next()?);
    let part = case.next()?;
    Some(netlist::record_view(source, mapped, index as usize) == part)
}

// A case of the count: source, numbers (capacity, input capacity, record); answer.
fn count_agrees(case: &mut Fields<'_>) -> Option<bool> {
    let source = case.next()?;
    let [capacity, input_capacity, record] = cases::numbers::<3>(case.next()?);
    let answer = case.next()?;
    let mut got = [0u8; 12];
    aqfp::aqfp_count(source, capacity, input_capacity, record, &mut got);
    Some(got.as_slice() == answer)
}

// A case of the verifier: source, numbers (capacity, input capacity), mapped; answer.
fn verifier_agrees(case: &mut Fields<'_>) -> Option<bool> {
    let source = case.next()?;
    let [capacity, input_capacity] = cases::numbers::<2>(case.next()?);
    let mapped = case.next()?;
    let answer = case.next()?;
    let mut got = [0u8; 12];
    aqfp::aqfp_verify(source, capacity, input_capacity, mapped, &mut got);
    Some(got.as_slice() == answer)
}

// A case of the evaluator: source, row, values before; answer, values after.
fn evaluate_agrees(case: &mut Fields<'_>) -> Option<bool> {
    let source = case.next()?;
    let row = case.next()?;
    let before = case.next()?;
    let answer = case.next()?;
    let after = case.next()?;
    let mut area = [0u8; AREA];
    let values = cases::filled(&mut area, before);
    let mut got = [0u8; 8];
    aqfp::aqfp_evaluate(source, row, values, &mut got);
    Some(got.as_slice() == answer && &*values == after)
}

// A case of the list of counts: source, numbers (capacity, input capacity), records, counts before; answer, counts after.
fn count_nets_agrees(case: &mut Fields<'_>) -> Option<bool> {
    let source = case.next()?;
    let [capacity, input_capacity] = cases::numbers::<2>(case.next()?);
    let records = case.next()?;
    let before = case.next()?;
    let answer = case.next()?;
    let after = case.next()?;
    let mut area = [0u8; AREA];
    let counts = cases::filled(&mut area, before);
    let mut got = [0u8; 8];
    aqfp::aqfp_count_nets(source, capacity, input_capacity, records, counts, &mut got);
    Some(got.as_slice() == answer && &*counts == after)
}

// A case of the least levels: source, numbers (capacity), area before; answer, area after.
fn levels_agrees(case: &mut Fields<'_>) -> Option<bool> {
    let source = case.next()?;
    let [capacity] = cases::numbers::<1>(case.next()?);
    let before = case.next()?;
    let answer = case.next()?;
    let after = case.next()?;
    let mut area = [0u8; AREA];
    let levelled = cases::filled(&mut area, before);
    let mut got = [0u8; 8];
    aqfp::aqfp_levels(source, capacity, levelled, &mut got);
    Some(got.as_slice() == answer && &*levelled == after)
}

// A case of stripping: numbers (capacity, input capacity), mapped, area before; answer, area after.
fn strip_agrees(case: &mut Fields<'_>) -> Option<bool> {
    let [capacity, input_capacity] = cases::numbers::<2>(case.next()?);
    let mapped = case.next()?;
    let before = case.next()?;
    let answer = case.next()?;
    let after = case.next()?;
    let mut area = [0u8; AREA];
    let source = cases::filled(&mut area, before);
    let mut got = [0u8; 12];
    aqfp::aqfp_strip(capacity, input_capacity, mapped, source, &mut got);
    Some(got.as_slice() == answer && &*source == after)
}

// A case of one step: source, numbers (capacity, input capacity), mapped, row, state before; answer, state after.
fn step_agrees(case: &mut Fields<'_>) -> Option<bool> {
    let source = case.next()?;
    let [capacity, input_capacity] = cases::numbers::<2>(case.next()?);
    let mapped = case.next()?;
    let row = case.next()?;
    let before = case.next()?;
    let answer = case.next()?;
    let after = case.next()?;
    let mut area = [0u8; AREA];
    let state = cases::filled(&mut area, before);
    let mut got = [0u8; 8];
    aqfp::aqfp_step(
        source,
        capacity,
        input_capacity,
        mapped,
        row,
        state,
        &mut got,
    );
    Some(got.as_slice() == answer && &*state == after)
}

// A case of the run: source, numbers (capacity, input capacity, row count), mapped, rows, state and outputs before; answer, state and outputs after.
fn run_agrees(case: &mut Fields<'_>) -> Option<bool> {
    let source = case.next()?;
    let [capacity, input_capacity, row_count] = cases::numbers::<3>(case.next()?);
    let mapped = case.next()?;
    let rows = case.next()?;
    let state_before = case.next()?;
    let outputs_before = case.next()?;
    let answer = case.next()?;
    let state_after = case.next()?;
    let outputs_after = case.next()?;
    let mut state_area = [0u8; AREA];
    let mut outputs_area = [0u8; AREA];
    let state = cases::filled(&mut state_area, state_before);
    let outputs = cases::filled(&mut outputs_area, outputs_before);
    let mut got = [0u8; 8];
    aqfp::aqfp_run(
        source,
        capacity,
        input_capacity,
        mapped,
        row_count,
        rows,
        state,
        outputs,
        &mut got,
    );
    Some(got.as_slice() == answer && &*state == state_after && &*outputs == outputs_after)
}

// A case of the block view: source, numbers (capacity, input capacity, record), mapped; part.
fn block_view_agrees(case: &mut Fields<'_>) -> Option<bool> {
    let source = case.next()?;
    let [buffer, input, record] = cases::numbers::<3>(case.next()?);
    let mapped = case.next()?;
    let part = case.next()?;
    let capacities = netlist::Capacities { buffer, input };
    Some(mapper::block_of(source, capacities, mapped, record as usize) == part)
}

// A case of the mapper: source, numbers (capacity, input capacity, length of the area), prices; answer, area after.
fn mapper_agrees(case: &mut Fields<'_>) -> Option<bool> {
    let source = case.next()?;
    let [capacity, input_capacity, length] = cases::numbers::<3>(case.next()?);
    let prices = case.next()?;
    let answer = case.next()?;
    let after = case.next()?;
    let mut area = [FILL; AREA];
    let mapped = area.get_mut(..length as usize)?;
    let mut got = [0u8; 28];
    aqfp::aqfp_map(source, capacity, input_capacity, prices, mapped, &mut got);
    Some(got.as_slice() == answer && &*mapped == after)
}

// How many of so many cases differ, and one more where the file does not end with its last case.
fn differing<F: Fn(&mut Fields<'_>) -> Option<bool>>(
    count: u32,
    mut fields: Fields<'_>,
    agrees: F,
) -> u32
    requires { F.IsAlwaysCallable agrees }
{
    let mut differ = 0u32;
    for _ in 0..count {
        if agrees(&mut fields) != Some(true) {
            differ = differ.saturating_add(1);
        }
    }
    if !fields.is_done() {
        differ = differ.saturating_add(1);
    }
    differ
}

// Reads the file of a family and prints how many cases it has and how many differ.
fn test_family<R: Files + Print, F: Fn(&mut Fields<'_>) -> Option<bool>>(
    rt: &R,
    name: &str,
    agrees: F,
) -> io::Result<()>
    requires { F.IsAlwaysCallable agrees }
{
    let mut file = [0u8; FILE_LIMIT];
    let file = reading::read_file(rt, name, &mut file);
    let [count] = cases::numbers::<1>(file);
    let differ = match Fields::of_file(file) {
        Some(fields) => differing(count, fields, agrees),
        None => 1,
    };
    println!(rt; "{name}: {count} cases, {differ} differ")
}

// Prints what the reader answers to so many bytes.
fn test_size(rt: &impl Print, bytes: &[u8], size: usize) -> io::Result<()> {
    if let Some(source) = bytes.get(..size) {
        print!(rt; "{size} bytes of inputs: ")?;
        print_checked(rt, netlist::check_source(source))?;
    }
    Ok(())
}

fn print_checked(rt: &impl Print, checked: Result<(), Refusal>) -> io::Result<()> {
    match checked {
        Ok(()) => println!(rt; "0 0"),
        Err(refusal) => println!(rt; "{refusal}"),
    }
}

// The sizes around a source's limit, on a file of inputs.
fn test_sizes(rt: &(impl Files + Print)) -> io::Result<()> {
    let mut inputs = [0u8; INPUTS_LIMIT];
    let inputs = reading::read_file(rt, "inputs", &mut inputs);
    println!(rt; "inputs: {} bytes", inputs.len())?;
    for size in [0, 40960, 40970, 40971] {
        test_size(rt, inputs, size)?;
    }
    Ok(())
}

fn main(rt: HostRuntime) -> io::Result<()> {
    test_family(&rt, "reader", reader_agrees)?;
    test_family(&rt, "record_view", record_view_agrees)?;
    test_family(&rt, "count", count_agrees)?;
    test_family(&rt, "count_nets", count_nets_agrees)?;
    test_family(&rt, "levels", levels_agrees)?;
    test_family(&rt, "strip", strip_agrees)?;
    test_family(&rt, "verifier", verifier_agrees)?;
    test_family(&rt, "evaluate", evaluate_agrees)?;
    test_family(&rt, "step", step_agrees)?;
    test_family(&rt, "run", run_agrees)?;
    test_family(&rt, "mapper", mapper_agrees)?;
    test_family(&rt, "block_view", block_view_agrees)?;
    test_sizes(&rt)
}
