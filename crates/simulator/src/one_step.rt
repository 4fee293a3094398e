// One step in place: the older values are kept in the second half of a state area, the first half is renewed from them.
ghost use Rattle.std.specs.Prelude.{◌≡◌, ◌++◌, ◌-◌, ◌*◌, ◌≤◌, length, take, drop};
ghost use Rattle.netlist.specs.Records.{netlist, record_count};
ghost use Rattle.netlist.specs.Balance.{Named};
ghost use Rattle.simulator.specs.Step.{renewed_below, older, stepped};
ghost use Rattle.simulator.specs.PrivateStep.{Buffered, copied};

use crate::plain_logic::Reader;
use netlist::record_reader;

// Keeps the first m bytes of a state area, as 0 or 1, in the next m.
fn keep(m: usize, state: &mut [u8])
    requires { length state.old ≡ 2 * m }
    ensures { state.new ≡ take m state.old ++ older m state.old }
{
    for i in 0..m {
        state[m + i] = u8::from(state[i] != 0);
    }
}

// A mapped netlist that can be stepped: how many of its records are the source's, which stand first, and how many there are.
#[derive(Clone, Copy)]
pub(crate) struct Stepper<'a> {
    pub(crate) mapped: &'a [u8],
    sources: usize,
    pub(crate) records: usize,
    ghost records_value: { records ≡ record_count mapped.now },
    ghost named: { Named (netlist mapped.now) },
    ghost buffered: { Buffered mapped.now sources },
}

impl<'a> Stepper<'a> {
    pub(crate) fn new(source: &[u8], mapped: &'a [u8]) -> Stepper<'a>
        requires named { Named (netlist mapped.now) }
        requires buffered { Buffered mapped.now (record_count source.now) }
        ensures { result.mapped.now ≡ mapped.now }
    {
        Stepper {
            mapped,
            sources: netlist::record_count(source),
            records: netlist::record_count(mapped),
        }
    }

    // The new values of the source's records, from what the second half holds.
    fn renew(self, row: &[u8], state: &mut [u8])
        requires { length state.old ≡ 2 * self.records }
        ensures { state.new ≡ renewed_below (netlist self.entry.mapped.now) row.now (drop self.entry.records state.old) self.entry.sources ++ drop self.entry.sources state.old }
    {
        let mut given: usize = 0;
        for i in 0..self.sources {
            let r = record_reader::read_at(self.mapped, i);
            let held = &state[self.records..];
            state[i] = Reader { r, held }.next_byte(row, given);
            given += usize::from(r.kind == netlist::INPUT);
        }
    }

    // The new values of the other records: buffers, which copy what the second half holds.
    fn copy_buffers(self, state: &mut [u8])
        requires { length state.old ≡ 2 * self.records }
        ensures { state.new ≡ (take self.entry.sources state.old ++ copied self.entry.mapped.now (drop self.entry.records state.old) self.entry.sources (self.entry.records - self.entry.sources)) ++ drop self.entry.records state.old }
    {
        for k in self.sources..self.records {
            let slot = netlist::slot(record_reader::read_at(self.mapped, k), 0);
            state[k] = state[self.records + usize::from(slot)];
        }
    }

    // One step in place.
    pub(crate) fn advance(self, row: &[u8], state: &mut [u8])
        requires { length state.old ≡ 2 * self.records }
        ensures { state.new ≡ stepped (netlist self.entry.mapped.now) row.now state.old }
    {
        keep(self.records, state);
        self.renew(row, state);
        self.copy_buffers(state);
    }
}
