// Plain logic: a record's function of what an area holds, and the values of all records.
ghost use Rattle.std.specs.Prelude.{◌≡◌, ◌+◌, ◌<◌, length, leb};
ghost use Rattle.facts.specs.Sums.{bit};
ghost use Rattle.netlist.specs.Kinds.{arity};
ghost use Rattle.netlist.specs.Records.{netlist, record_count};
ghost use Rattle.netlist.specs.Source.{IsSource};
ghost use Rattle.simulator.specs.Logic.{on, turned, values};
ghost use Rattle.simulator.specs.PrivateLogic.{function_in, value_in, Wired, read_in, third_in};

use netlist::{Record, record_reader};

// The value that byte i of an area stands for, 0 past the end.
fn is_on(area: &[u8], i: usize) -> bool
    ensures { result ≡ on area.now i }
{
    area.get(i).copied().unwrap_or(0) != 0
}

// A value turned over where the lowest bit is 1.
fn turn(bits: u8, value: bool) -> bool
    ensures { result ≡ turned bits value }
{
    value != (bits % 2 == 1)
}

// Whether at least two of three values are 1.
fn at_least_two(a: bool, b: bool, c: bool) -> bool
    ensures { result ≡ leb 2 (bit a + bit b + bit c) }
{
    2 <= u8::from(a) + u8::from(b) + u8::from(c)
}

// A record, and an area that has a byte for each record that it names.
#[derive(Clone, Copy)]
pub(crate) struct Reader<'a> {
    pub(crate) r: Record,
    pub(crate) held: &'a [u8],
    ghost wired: { Wired r (length held.now) },
}

impl Reader<'_> {
    // What used slot j reads, turned over where its inversion bit is 1.
    fn slot(self, j: usize) -> bool
        requires { j < arity self.r.kind }
        ensures { result ≡ read_in self.entry.r self.entry.held.now j }
    {
        turn(
            self.r.inversion >> j,
            self.held[usize::from(netlist::slot(self.r, j))] != 0,
        )
    }

    // A gate's third value: what MAJ's third slot reads, 0 for AND, 1 for OR.
    fn third(self) -> bool
        ensures { result ≡ third_in self.entry.r self.entry.held.now }
    {
        if self.r.kind == netlist::MAJORITY {
            self.slot(2)
        } else {
            self.r.kind == netlist::OR
        }
    }

    // The record's function of what the area holds.
    fn function(self) -> bool
        ensures { result ≡ function_in self.entry.r self.entry.held.now }
    {
        if netlist::is_gate(self.r.kind) {
            return at_least_two(self.slot(0), self.slot(1), self.third());
        }
        if netlist::arity(self.r.kind) == 0 {
            return false;
        }
        self.slot(0)
    }

    // What the record holds next, as a byte: an input byte `given` of the row, every other record its function.
    pub(crate) fn next_byte(self, row: &[u8], given: usize) -> u8
        ensures { result ≡ bit (value_in self.entry.r (on row.now given) self.entry.held.now) }
    {
        if self.r.kind == netlist::INPUT {
            return u8::from(is_on(row, given));
        }
        u8::from(self.function())
    }
}

// Plain logic's values, by rising index.
pub(crate) fn fill(source: &[u8], row: &[u8], n: usize, area: &mut [u8])
    requires source { IsSource (netlist source.now) }
    requires sizes { (n ≡ record_count source.now) × (length area.old ≡ n) }
    ensures { area.new ≡ values (netlist source.now) row.now n }
{
    let mut given: usize = 0;
    for i in 0..n {
        let r = record_reader::read_at(source, i);
        let held = &area[..i];
        area[i] = Reader { r, held }.next_byte(row, given);
        given += usize::from(r.kind == netlist::INPUT);
    }
}
