// The C interface: the calls over numbers and byte areas. Numbers of an answer are four bytes each, low byte first.
#![tactic(auto)]

ghost use Rattle.std.specs.Prelude.{◌≡◌, ◌*◌, ◌<◌, length};
ghost use Rattle.facts.specs.Answers.{numbered, told};
ghost use Rattle.facts.specs.Checks.{checked_numbers};
ghost use Rattle.netlist.specs.Capacities.{capacities_of};
ghost use Rattle.fanout.specs.Answer.{count_answer, count_numbers};
ghost use Rattle.levels.specs.Levels.{levels_answer, levels_area};
ghost use Rattle.nets.specs.Counts.{counts_answer, counts_area};
ghost use Rattle.mapper.specs.Answer.{map_answer, map_area, mapping_numbers};
ghost use Rattle.verifier.specs.Checks.{verify_answer, verified_numbers};
ghost use Rattle.strip.specs.Answer.{strip_answer, strip_area, stripped_numbers};
ghost use Rattle.simulator.specs.Evaluate.{evaluate_answer, evaluate_area};
ghost use Rattle.simulator.specs.Step.{step_answer, step_area};
ghost use Rattle.simulator.specs.Run.{run_answer, run_area, run_outputs};
ghost use Rattle.aqfp.specs.Answers.{counted, refused, Answered};

use facts::Refusal;
use fanout::{Count, NO_TREE};
use netlist::Capacities;

// The capacities of a host's two numbers.
fn capacities_of(buffer: u32, input: u32) -> Capacities
    ensures { result ≡ capacities_of buffer input }
{
    Capacities { buffer, input }
}

// Stores the numbers of an answer and returns the first.
fn write_answer(answer: &mut [u8], numbers: &[u32]) -> u32
    requires answer_len { length answer.old ≡ 4 * length numbers.now }
    requires numbers_nonzero { 0 < length numbers.now }
    ensures { Answered result answer.new numbers.now }
{
    for (k, number) in numbers.iter().enumerate() {
        facts::write_four(answer, k, *number);
    }
    numbers[0]
}

// Stores the number and the place of checks.
fn answer_checked(answer: &mut [u8; 8], checked: Result<(), Refusal>) -> u32
    ensures { Answered result answer.new (checked_numbers (numbered checked)) }
{
    match checked {
        Ok(()) => write_answer(answer, &[0, 0]),
        Err(refusal) => write_answer(answer, &[refusal.check.number(), refusal.place]),
    }
}

// Stores the number and the place of checks, and what an accepted call counts, 0 if it refuses.
fn answer_number(answer: &mut [u8; 12], answered: Result<u32, Refusal>) -> u32
    ensures { Answered result answer.new (told answered counted refused) }
{
    match answered {
        Ok(n) => write_answer(answer, &[0, 0, n]),
        Err(refusal) => write_answer(answer, &[refusal.check.number(), refusal.place, 0]),
    }
}

// The mapper: number, place, M, buffers, D, JJs, share.
pub fn aqfp_map(
    source: &[u8],
    capacity: u32,
    input_capacity: u32,
    prices: &[u8],
    mapped: &mut [u8],
    answer: &mut [u8; 28],
) -> u32
    ensures answer { Answered result answer.new (mapping_numbers (map_answer source.now (capacities_of capacity input_capacity) prices.now mapped.old)) }
    ensures area { mapped.new ≡ map_area source.now (capacities_of capacity input_capacity) prices.now mapped.old }
{
    let capacities = capacities_of(capacity, input_capacity);
    match mapper::map_netlist(source, capacities, prices, mapped) {
        Ok(t) => write_answer(
            answer,
            &[0, 0, t.size, t.buffers, t.depth, t.junctions, t.share],
        ),
        Err(refusal) => write_answer(
            answer,
            &[refusal.check.number(), refusal.place, 0, 0, 0, 0, 0],
        ),
    }
}

// The count of one net: number, place, fewest buffers, or what stands for no tree.
pub fn aqfp_count(
    source: &[u8],
    capacity: u32,
    input_capacity: u32,
    record: u32,
    answer: &mut [u8; 12],
) -> u32
    ensures { Answered result answer.new (count_numbers (count_answer source.now (capacities_of capacity input_capacity) «record»)) }
{
    let capacities = capacities_of(capacity, input_capacity);
    match fanout::count_net(source, capacities, record) {
        Count::Fewest(buffers) => write_answer(answer, &[0, 0, buffers]),
        Count::NoTree => write_answer(answer, &[0, 0, NO_TREE]),
        Count::Refused(number, place) => write_answer(answer, &[number, place, 0]),
    }
}

// The list of counts: number, place.
pub fn aqfp_count_nets(
    source: &[u8],
    capacity: u32,
    input_capacity: u32,
    records: &[u8],
    counts: &mut [u8],
    answer: &mut [u8; 8],
) -> u32
    ensures answer { Answered result answer.new (checked_numbers (counts_answer source.now (capacities_of capacity input_capacity) records.now counts.old)) }
    ensures area { counts.new ≡ counts_area source.now (capacities_of capacity input_capacity) records.now counts.old }
{
    let capacities = capacities_of(capacity, input_capacity);
    answer_checked(
        answer,
        nets::count_nets(source, capacities, records, counts),
    )
}

// The verifier (specification 4.3): number, place, buffers.
pub fn aqfp_verify(
    source: &[u8],
    capacity: u32,
    input_capacity: u32,
    mapped: &[u8],
    answer: &mut [u8; 12],
) -> u32
    ensures { Answered result answer.new (verified_numbers (verify_answer source.now (capacities_of capacity input_capacity) mapped.now)) }
{
    let capacities = capacities_of(capacity, input_capacity);
    answer_number(answer, verifier::verify(source, capacities, mapped))
}

// The plain evaluator: number, place.
pub fn aqfp_evaluate(source: &[u8], row: &[u8], values: &mut [u8], answer: &mut [u8; 8]) -> u32
    ensures answer { Answered result answer.new (checked_numbers (evaluate_answer source.now row.now values.old)) }
    ensures area { values.new ≡ evaluate_area source.now row.now values.old }
{
    answer_checked(answer, simulator::evaluate(source, row, values))
}

// One step: number, place.
pub fn aqfp_step(
    source: &[u8],
    capacity: u32,
    input_capacity: u32,
    mapped: &[u8],
    row: &[u8],
    state: &mut [u8],
    answer: &mut [u8; 8],
) -> u32
    ensures answer { Answered result answer.new (checked_numbers (step_answer source.now (capacities_of capacity input_capacity) mapped.now row.now state.old)) }
    ensures area { state.new ≡ step_area source.now (capacities_of capacity input_capacity) mapped.now row.now state.old }
{
    let capacities = capacities_of(capacity, input_capacity);
    answer_checked(
        answer,
        simulator::step(source, capacities, mapped, row, state),
    )
}

// The phase run: number, place.
pub fn aqfp_run(
    source: &[u8],
    capacity: u32,
    input_capacity: u32,
    mapped: &[u8],
    row_count: u32,
    rows: &[u8],
    state: &mut [u8],
    outputs: &mut [u8],
    answer: &mut [u8; 8],
) -> u32
    ensures answer { Answered result answer.new (checked_numbers (run_answer source.now (capacities_of capacity input_capacity) mapped.now row_count rows.now state.old outputs.old)) }
    ensures area { state.new ≡ run_area source.now (capacities_of capacity input_capacity) mapped.now row_count rows.now state.old outputs.old }
    ensures outputs { outputs.new ≡ run_outputs source.now (capacities_of capacity input_capacity) mapped.now row_count rows.now state.old outputs.old }
{
    let capacities = capacities_of(capacity, input_capacity);
    answer_checked(
        answer,
        simulator::run(source, capacities, mapped, row_count, rows, state, outputs),
    )
}

// Least levels: number, place.
pub fn aqfp_levels(source: &[u8], capacity: u32, levelled: &mut [u8], answer: &mut [u8; 8]) -> u32
    ensures answer { Answered result answer.new (checked_numbers (levels_answer source.now capacity levelled.old)) }
    ensures area { levelled.new ≡ levels_area source.now capacity levelled.old }
{
    answer_checked(answer, levels::assign_levels(source, capacity, levelled))
}

// Stripping: number, place, N.
pub fn aqfp_strip(
    capacity: u32,
    input_capacity: u32,
    mapped: &[u8],
    source: &mut [u8],
    answer: &mut [u8; 12],
) -> u32
    ensures answer { Answered result answer.new (stripped_numbers (strip_answer (capacities_of capacity input_capacity) mapped.now source.old)) }
    ensures area { source.new ≡ strip_area (capacities_of capacity input_capacity) mapped.now source.old }
{
    let capacities = capacities_of(capacity, input_capacity);
    answer_number(answer, strip::strip(capacities, mapped, source))
}
