// The static library of the C interface: the calls of the crate aqfp under the names, parameters and contracts that they have there.
#![tactic(auto)]

ghost use Rattle.std.specs.Prelude.{◌≡◌};
ghost use Rattle.facts.specs.Checks.{checked_numbers};
ghost use Rattle.netlist.specs.Capacities.{capacities_of};
ghost use Rattle.fanout.specs.Answer.{count_answer, count_numbers};
ghost use Rattle.levels.specs.Levels.{levels_answer, levels_area};
ghost use Rattle.nets.specs.Counts.{counts_answer, counts_area};
ghost use Rattle.mapper.specs.Answer.{map_answer, map_area, mapping_numbers};
ghost use Rattle.verifier.specs.Checks.{verify_answer, verified_numbers};
ghost use Rattle.strip.specs.Answer.{strip_answer, strip_area, stripped_numbers};
ghost use Rattle.simulator.specs.Evaluate.{evaluate_answer, evaluate_area};
ghost use Rattle.simulator.specs.Step.{step_answer, step_area};
ghost use Rattle.simulator.specs.Run.{run_answer, run_area, run_outputs};
ghost use Rattle.aqfp.specs.Answers.{Answered};

// The mapper: number, place, M, buffers, D, JJs, share.
#[unsafe(no_mangle)]
pub extern "C" fn aqfp_map(
    source: &[u8],
    capacity: u32,
    input_capacity: u32,
    prices: &[u8],
    mapped: &mut [u8],
    answer: &mut [u8; 28],
) -> u32
    ensures answer { Answered result answer.new (mapping_numbers (map_answer source.now (capacities_of capacity input_capacity) prices.now mapped.old)) }
    ensures area { mapped.new ≡ map_area source.now (capacities_of capacity input_capacity) prices.now mapped.old }
{
    aqfp::aqfp_map(source, capacity, input_capacity, prices, mapped, answer)
}

// The count of one net: number, place, fewest buffers, or what stands for no tree.
#[unsafe(no_mangle)]
pub extern "C" fn aqfp_count(
    source: &[u8],
    capacity: u32,
    input_capacity: u32,
    record: u32,
    answer: &mut [u8; 12],
) -> u32
    ensures { Answered result answer.new (count_numbers (count_answer source.now (capacities_of capacity input_capacity) «record»)) }
{
    aqfp::aqfp_count(source, capacity, input_capacity, record, answer)
}

// The list of counts: number, place.
#[unsafe(no_mangle)]
pub extern "C" fn aqfp_count_nets(
    source: &[u8],
    capacity: u32,
    input_capacity: u32,
    records: &[u8],
    counts: &mut [u8],
    answer: &mut [u8; 8],
) -> u32
    ensures answer { Answered result answer.new (checked_numbers (counts_answer source.now (capacities_of capacity input_capacity) records.now counts.old)) }
    ensures area { counts.new ≡ counts_area source.now (capacities_of capacity input_capacity) records.now counts.old }
{
    aqfp::aqfp_count_nets(source, capacity, input_capacity, records, counts, answer)
}

// The verifier (specification 4.3): number, place, buffers.
#[unsafe(no_mangle)]
pub extern "C" fn aqfp_verify(
    source: &[u8],
    capacity: u32,
    input_capacity: u32,
    mapped: &[u8],
    answer: &mut [u8; 12],
) -> u32
    ensures { Answered result answer.new (verified_numbers (verify_answer source.now (capacities_of capacity input_capacity) mapped.now)) }
{
    aqfp::aqfp_verify(source, capacity, input_capacity, mapped, answer)
}

// The plain evaluator: number, place.
#[unsafe(no_mangle)]
pub extern "C" fn aqfp_evaluate(
    source: &[u8],
    row: &[u8],
    values: &mut [u8],
    answer: &mut [u8; 8],
) -> u32
    ensures answer { Answered result answer.new (checked_numbers (evaluate_answer source.now row.now values.old)) }
    ensures area { values.new ≡ evaluate_area source.now row.now values.old }
{
    aqfp::aqfp_evaluate(source, row, values, answer)
}

// One step: number, place.
#[unsafe(no_mangle)]
pub extern "C" fn aqfp_step(
    source: &[u8],
    capacity: u32,
    input_capacity: u32,
    mapped: &[u8],
    row: &[u8],
    state: &mut [u8],
    answer: &mut [u8; 8],
) -> u32
    ensures answer { Answered result answer.new (checked_numbers (step_answer source.now (capacities_of capacity input_capacity) mapped.now row.now state.old)) }
    ensures area { state.new ≡ step_area source.now (capacities_of capacity input_capacity) mapped.now row.now state.old }
{
    aqfp::aqfp_step(source, capacity, input_capacity, mapped, row, state, answer)
}

// The phase run: number, place.
#[unsafe(no_mangle)]
pub extern "C" fn aqfp_run(
    source: &[u8],
    capacity: u32,
    input_capacity: u32,
    mapped: &[u8],
    row_count: u32,
    rows: &[u8],
    state: &mut [u8],
    outputs: &mut [u8],
    answer: &mut [u8; 8],
) -> u32
    ensures answer { Answered result answer.new (checked_numbers (run_answer source.now (capacities_of capacity input_capacity) mapped.now row_count rows.now state.old outputs.old)) }
    ensures area { state.new ≡ run_area source.now (capacities_of capacity input_capacity) mapped.now row_count rows.now state.old outputs.old }
    ensures outputs { outputs.new ≡ run_outputs source.now (capacities_of capacity input_capacity) mapped.now row_count rows.now state.old outputs.old }
{
    aqfp::aqfp_run(
        source,
        capacity,
        input_capacity,
        mapped,
        row_count,
        rows,
        state,
        outputs,
        answer,
    )
}

// Least levels: number, place.
#[unsafe(no_mangle)]
pub extern "C" fn aqfp_levels(
    source: &[u8],
    capacity: u32,
    levelled: &mut [u8],
    answer: &mut [u8; 8],
) -> u32
    ensures answer { Answered result answer.new (checked_numbers (levels_answer source.now capacity levelled.old)) }
    ensures area { levelled.new ≡ levels_area source.now capacity levelled.old }
{
    aqfp::aqfp_levels(source, capacity, levelled, answer)
}

// Stripping: number, place, N.
#[unsafe(no_mangle)]
pub extern "C" fn aqfp_strip(
    capacity: u32,
    input_capacity: u32,
    mapped: &[u8],
    source: &mut [u8],
    answer: &mut [u8; 12],
) -> u32
    ensures answer { Answered result answer.new (stripped_numbers (strip_answer (capacities_of capacity input_capacity) mapped.now source.old)) }
    ensures area { source.new ≡ strip_area (capacities_of capacity input_capacity) mapped.now source.old }
{
    aqfp::aqfp_strip(capacity, input_capacity, mapped, source, answer)
}
