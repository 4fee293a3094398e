// The plain evaluator, one step and the phase run (checks 18 and 19).
#![tactic(auto)]

ghost use Rattle.std.specs.Prelude.{◌≡◌};
ghost use Rattle.facts.specs.Answers.{numbered};
ghost use Rattle.simulator.specs.Evaluate.{evaluate_answer, evaluate_area};
ghost use Rattle.simulator.specs.Step.{step_answer, step_area};
ghost use Rattle.simulator.specs.Run.{run_answer, run_area, run_outputs};

use facts::Refusal;
use netlist::Capacities;
use one_step::Stepper;

mod area_checks;
mod one_step;
mod phase_run;
mod plain_logic;

// The plain evaluator: checks 2 to 7, 18 and 19; accepted, the area holds plain logic's value of each record.
pub fn evaluate(source: &[u8], row: &[u8], values: &mut [u8]) -> Result<(), Refusal>
    ensures answer { numbered result ≡ evaluate_answer source.now row.now values.old }
    ensures area { values.new ≡ evaluate_area source.now row.now values.old }
{
    area_checks::check_evaluate(source, row, values)?;
    plain_logic::fill(source, row, netlist::record_count(source), values);
    Ok(())
}

// One step: the checks of a run of one row that has no output area; accepted, the state area is one step on.
pub fn step(
    source: &[u8],
    capacities: Capacities,
    mapped: &[u8],
    row: &[u8],
    state: &mut [u8],
) -> Result<(), Refusal>
    ensures answer { numbered result ≡ step_answer source.now capacities mapped.now row.now state.old }
    ensures area { state.new ≡ step_area source.now capacities mapped.now row.now state.old }
{
    area_checks::check_step(source, capacities, mapped, row, state)?;
    Stepper::new(source, mapped).advance(row, state);
    Ok(())
}

// The phase run: the verifier's checks, then 18 and 19; accepted, the step over and over from zeros.
pub fn run(
    source: &[u8],
    capacities: Capacities,
    mapped: &[u8],
    row_count: u32,
    rows: &[u8],
    state: &mut [u8],
    outputs: &mut [u8],
) -> Result<(), Refusal>
    ensures answer { numbered result ≡ run_answer source.now capacities mapped.now row_count rows.now state.old outputs.old }
    ensures area { state.new ≡ run_area source.now capacities mapped.now row_count rows.now state.old outputs.old }
    ensures outputs { outputs.new ≡ run_outputs source.now capacities mapped.now row_count rows.now state.old outputs.old }
{
    area_checks::check_run(source, capacities, mapped, row_count, rows, state, outputs)?;
    let stepper = Stepper::new(source, mapped);
    phase_run::play(source, stepper, row_count, rows, state, outputs);
    Ok(())
}
