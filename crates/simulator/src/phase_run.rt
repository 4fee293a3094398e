// The phase run: the step over and over from zeros, and its output rows.
ghost use Rattle.std.specs.Prelude.{◌≡◌, ◌++◌, ◌+◌, ◌*◌, ◌<◌, ◌≤◌, ◌^◌, length, take, drop};
ghost use Rattle.netlist.specs.Kinds.{source_limit};
ghost use Rattle.netlist.specs.Records.{netlist, record_count};
ghost use Rattle.netlist.specs.Records;
ghost use Rattle.netlist.specs.Counts;
ghost use Rattle.simulator.specs.Logic.{output_row};
ghost use Rattle.simulator.specs.Step.{row_limit};
ghost use Rattle.simulator.specs.Run.{row_at, after, steps, output_rows};
ghost use Rattle.simulator.specs.PrivateRun.{IsRun};

use crate::one_step::Stepper;

// The bytes of the output records, in index order.
fn collect(source: &[u8], state: &[u8], row: &mut [u8])
    requires { length row.old ≡ Counts.outputs (netlist source.now) }
    ensures { row.new ≡ output_row (netlist source.now) state.now }
{
    let mut k: usize = 0;
    for i in 0..netlist::record_count(source) {
        if netlist::kind_at(source, i) == netlist::OUTPUT {
            row[k] = state.get(i).copied().unwrap_or(0);
            k += 1;
        }
    }
}

// A run: a source and the netlist mapped from it, the rows, and how many inputs, outputs and levels the source has.
#[derive(Clone, Copy)]
struct Run<'a> {
    source: &'a [u8],
    stepper: Stepper<'a>,
    rows: &'a [u8],
    inputs: usize,
    outputs: usize,
    depth: usize,
    ghost inputs_bound: { inputs ≤ source_limit },
    ghost inputs_value: { inputs ≡ Counts.inputs (netlist source.now) },
    ghost outputs_value: { outputs ≡ Counts.outputs (netlist source.now) },
    ghost depth_value: { depth ≡ Records.depth (netlist source.now) },
    ghost depth_bound: { depth < 2 ^ 16 },
}

impl<'a> Run<'a> {
    // Row k, empty once the rows are spent.
    fn row(self, k: usize) -> &'a [u8]
        requires { k < 2 ^ 17 }
        ensures { result.now ≡ row_at self.entry.inputs self.entry.rows.now k }
    {
        let at = k * self.inputs;
        let end = self.rows.len();
        &self.rows[at.min(end)..(at + self.inputs).min(end)]
    }

    // Writes output row t.
    fn write_row(self, state: &[u8], t: usize, outs: &mut [u8])
        requires { t * self.outputs + self.outputs ≤ length outs.old }
        ensures { outs.new ≡ take (t * self.entry.outputs) outs.old ++ (output_row (netlist self.entry.source.now) state.now ++ drop (t * self.entry.outputs + self.entry.outputs) outs.old) }
    {
        let at = t * self.outputs;
        let end = at + self.outputs;
        collect(self.source, state, &mut outs[at..end]);
    }

    // The first D steps.
    fn warm_up(self, state: &mut [u8])
        requires { state.old ≡ after (netlist self.stepper.mapped.now) self.inputs self.rows.now 0 }
        ensures { state.new ≡ after (netlist self.entry.stepper.mapped.now) self.entry.inputs self.entry.rows.now self.entry.depth }
    {
        for k in 0..self.depth {
            self.stepper.advance(self.row(k), state);
        }
    }

    // The other steps, an output row after each.
    fn play_rows(self, count: usize, state: &mut [u8], outs: &mut [u8])
        requires few { count ≤ row_limit }
        requires room { length outs.old ≡ count * self.outputs }
        requires state_before { state.old ≡ after (netlist self.stepper.mapped.now) self.inputs self.rows.now self.depth }
        ensures state_after { state.new ≡ after (netlist self.entry.stepper.mapped.now) self.entry.inputs self.entry.rows.now (count + self.entry.depth) }
        ensures outs_after { outs.new ≡ output_rows (netlist self.entry.source.now) (netlist self.entry.stepper.mapped.now) self.entry.rows.now count }
    {
        for t in 0..count {
            self.stepper.advance(self.row(t + self.depth), state);
            self.write_row(state, t, outs);
        }
    }
}

// A run whose areas passed 18: the steps from zeros, none without rows, and the output rows.
pub(crate) fn play(
    source: &[u8],
    stepper: Stepper,
    row_count: u32,
    rows: &[u8],
    state: &mut [u8],
    outs: &mut [u8],
)
    requires source_bound { record_count source.now ≤ source_limit }
    requires run { IsRun (netlist source.now) (netlist stepper.mapped.now) row_count rows.now state.old outs.old }
    ensures state_after { state.new ≡ after (netlist stepper.entry.mapped.now) (Counts.inputs (netlist source.now)) rows.now (steps (netlist source.now) row_count) }
    ensures outs_after { outs.new ≡ output_rows (netlist source.now) (netlist stepper.entry.mapped.now) rows.now row_count }
{
    state.fill(0);
    if row_count == 0 {
        return;
    }
    let run = Run {
        source,
        stepper,
        rows,
        inputs: netlist::count_kind(source, netlist::INPUT),
        outputs: netlist::count_kind(source, netlist::OUTPUT),
        depth: usize::from(netlist::depth(source)),
    };
    run.warm_up(state);
    run.play_rows(row_count as usize, state, outs);
}
