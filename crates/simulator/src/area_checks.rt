// Checks 18 and 19 of the evaluator, a step and a run, behind those of the netlists.
ghost use Rattle.std.specs.Prelude.{◌≡◌, ◌<◌, ◌≤◌, ◌^◌, length};
ghost use Rattle.facts.specs.Answers.{Passed, numbered};
ghost use Rattle.netlist.specs.Kinds.{source_limit};
ghost use Rattle.netlist.specs.Records.{netlist, record_count};
ghost use Rattle.netlist.specs.Checks.{source_checks};
ghost use Rattle.simulator.specs.Evaluate.{bit_checks, bad_areas, evaluate_checks, evaluate_answer};
ghost use Rattle.simulator.specs.Step.{row_limit, bad_rows, step_checks, step_answer};
ghost use Rattle.simulator.specs.Run.{bad_outputs, run_checks, run_answer};

use facts::{Check, Refusal};
use netlist::Capacities;

// The most rows of a run.
const ROW_LIMIT: u32 = 10000;

// Check 19: the first byte above 1.
fn check_bits(row: &[u8]) -> Result<(), Refusal>
    requires { length row.now < 2 ^ 32 }
    ensures { numbered result ≡ bit_checks row.now }
{
    match row.iter().position(|&bit| 1 < bit) {
        Some(k) => Err(Refusal {
            check: Check::Bit,
            place: k as u32,
        }),
        None => Ok(()),
    }
}

// Check 18 of the evaluator: not one row of a byte per input, or not a byte per record.
fn bad_areas(source: &[u8], row: &[u8], area: &[u8]) -> bool
    ensures { result ≡ bad_areas (netlist source.now) row.now area.now }
{
    row.len() != netlist::count_kind(source, netlist::INPUT)
        || area.len() != netlist::record_count(source)
}

// Checks 18 and 19 of the evaluator.
fn check_areas(source: &[u8], row: &[u8], area: &[u8]) -> Result<(), Refusal>
    requires { source_checks source.now ≡ Passed }
    ensures { numbered result ≡ evaluate_checks (netlist source.now) row.now area.now }
{
    if bad_areas(source, row, area) {
        return Err(Refusal {
            check: Check::RowLengths,
            place: 0,
        });
    }
    check_bits(row)
}

// Checks 2 to 7, 18 and 19.
pub(crate) fn check_evaluate(source: &[u8], row: &[u8], area: &[u8]) -> Result<(), Refusal>
    ensures { numbered result ≡ evaluate_answer source.now row.now area.now }
{
    netlist::check_source(source)?;
    check_areas(source, row, area)
}

// A source within its limit of records, and a mapped netlist.
#[derive(Clone, Copy)]
struct Netlists<'a> {
    source: &'a [u8],
    mapped: &'a [u8],
    ghost source_bound: { record_count source.now ≤ source_limit },
}

impl Netlists<'_> {
    // Check 18: too many rows, or rows or a state area of another length.
    fn bad_rows(self, row_count: u32, rows: &[u8], state: &[u8]) -> bool
        ensures { result ≡ bad_rows (netlist self.entry.source.now) (netlist self.entry.mapped.now) row_count rows.now state.now }
    {
        ROW_LIMIT < row_count
            || rows.len() != row_count as usize * netlist::count_kind(self.source, netlist::INPUT)
            || state.len() != 2 * netlist::record_count(self.mapped)
    }

    // Check 18: an output area of another length.
    fn bad_outputs(self, row_count: u32, outs: &[u8]) -> bool
        requires { row_count ≤ row_limit }
        ensures { result ≡ bad_outputs (netlist self.entry.source.now) row_count outs.now }
    {
        outs.len() != row_count as usize * netlist::count_kind(self.source, netlist::OUTPUT)
    }

    // Checks 18 and 19 of a step.
    fn check_row(self, row: &[u8], state: &[u8]) -> Result<(), Refusal>
        ensures { numbered result ≡ step_checks (netlist self.entry.source.now) (netlist self.entry.mapped.now) row.now state.now }
    {
        if self.bad_rows(1, row, state) {
            return Err(Refusal {
                check: Check::RowLengths,
                place: 0,
            });
        }
        check_bits(row)
    }

    // Checks 18 and 19 of a run.
    fn check_rows(
        self,
        row_count: u32,
        rows: &[u8],
        state: &[u8],
        outs: &[u8],
    ) -> Result<(), Refusal>
        ensures { numbered result ≡ run_checks (netlist self.entry.source.now) (netlist self.entry.mapped.now) row_count rows.now state.now outs.now }
    {
        if self.bad_rows(row_count, rows, state) {
            return Err(Refusal {
                check: Check::RowLengths,
                place: 0,
            });
        }
        if self.bad_outputs(row_count, outs) {
            return Err(Refusal {
                check: Check::RowLengths,
                place: 0,
            });
        }
        check_bits(rows)
    }
}

// The verifier's checks, then 18 and 19.
pub(crate) fn check_step(
    source: &[u8],
    capacities: Capacities,
    mapped: &[u8],
    row: &[u8],
    state: &[u8],
) -> Result<(), Refusal>
    ensures { numbered result ≡ step_answer source.now capacities mapped.now row.now state.now }
{
    verifier::check_mapping(source, capacities, mapped)?;
    Netlists { source, mapped }.check_row(row, state)
}

// The verifier's checks, then 18 and 19.
pub(crate) fn check_run(
    source: &[u8],
    capacities: Capacities,
    mapped: &[u8],
    row_count: u32,
    rows: &[u8],
    state: &[u8],
    outs: &[u8],
) -> Result<(), Refusal>
    ensures { numbered result ≡ run_answer source.now capacities mapped.now row_count rows.now state.now outs.now }
{
    verifier::check_mapping(source, capacities, mapped)?;
    Netlists { source, mapped }.check_rows(row_count, rows, state, outs)
}
