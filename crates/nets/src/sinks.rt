// The chains of sinks: each driver's first sink, and after each sink its driver's next.
ghost use Rattle.std.specs.Prelude.{◌≡◌, suc, ◌+◌, ◌-◌, ◌*◌, ◌/◌, ◌<◌, ◌≤◌, length, replicate};
ghost use Rattle.netlist.specs.Kinds.{slots, top_level, arity};
ghost use Rattle.netlist.specs.Records.{netlist, record_count};
ghost use Rattle.netlist.specs.Source.{IsSource};
ghost use Rattle.nets.specs.PrivateChains.{Above, Emptied, Linked, Chained, ChainIs};
ghost use Rattle.fanout.specs.PrivateStretches.{InStretches};
ghost use Rattle.fanout.specs.PrivateWalk.{Filled};

use fanout::{DISTANCES, Reach, stretches};
use netlist::{INPUT, Record, SLOTS, UNUSED};
use std::hint::select_unpredictable;

// Records and slots of the largest source.
pub const RECORDS: usize = netlist::SOURCE_LIMIT;

pub const SINKS: usize = SLOTS * RECORDS;

// The sinks of a driver: none; one or two, with the largest distance and that of the other sink, 0 without another; or more.
#[derive(Clone, Copy, Debug, PartialEq, Eq)]
pub enum Chain {
    Empty,
    Short(usize, usize),
    Long,
}

// The chains of a source's drivers: the first sink of each, after each sink its driver's next, and the slot where all chains end.
#[derive(Clone, Copy)]
pub struct Chains<'a> {
    pub first: &'a [u16],
    pub next: &'a [u16],
    pub end: usize,
}

// The chains of n records, all empty: each begins at the end.
pub fn empty_chains(n: usize, end: u16, first: &mut [u16])
    requires { n ≤ length first.old }
    ensures { Emptied n end first.new }
{
    first[..n].fill(end);
}

// Slot j of r, which is record i and uses it: it comes before what its driver had first.
fn link_sink(source: &[u8], i: usize, r: Record, j: usize, first: &mut [u16], next: &mut [u16])
    requires source { IsSource (netlist source.now) }
    requires i_bound { (i < (netlist source.now).size) × (j < slots) }
    requires j_bound { j < arity r.kind }
    requires r_value { r ≡ (netlist source.now).at i }
    requires linked { Linked (netlist source.now) first.old next.old (slots * i + (j + 1)) }
    ensures { Linked (netlist source.now) first.new next.new (slots * i + j) }
{
    let d = usize::from(netlist::slot(r, j));
    let x = SLOTS * i + j;
    next[x] = first[d];
    first[d] = x as u16;
}

// Slot j of r, which is record i, used or not. An unused slot stays unused, and record i's first sink as it was; so no branch goes by the slot.
fn link_slot(source: &[u8], i: usize, r: Record, j: usize, first: &mut [u16], next: &mut [u16])
    requires source { IsSource (netlist source.now) }
    requires i_bound { (i < (netlist source.now).size) × (j < slots) }
    requires r_value { r ≡ (netlist source.now).at i }
    requires linked { Linked (netlist source.now) first.old next.old (slots * i + (j + 1)) }
    ensures { Linked (netlist source.now) first.new next.new (slots * i + j) }
{
    let d = netlist::slot(r, j);
    let unused = d == UNUSED;
    let x = SLOTS * i + j;
    let driver = select_unpredictable(unused, i, usize::from(d));
    let old = first[driver];
    next[x] = select_unpredictable(unused, UNUSED, old);
    first[driver] = select_unpredictable(unused, old, x as u16);
}

// Slots 2 and 1 of r, which is record i: a gate uses slot 1 and may use slot 2, and no other record uses either.
fn link_later_slots(source: &[u8], i: usize, r: Record, first: &mut [u16], next: &mut [u16])
    requires source { IsSource (netlist source.now) }
    requires i_bound { i < (netlist source.now).size }
    requires r_value { r ≡ (netlist source.now).at i }
    requires linked { Linked (netlist source.now) first.old next.old (slots * (i + 1)) }
    ensures { Linked (netlist source.now) first.new next.new (slots * i + 1) }
{
    if !netlist::is_gate(r.kind) {
        return;
    }
    link_slot(source, i, r, 2, first, next);
    link_sink(source, i, r, 1, first, next);
}

// The slots of r, which is record i, from the last one down: an input uses none.
fn link_slots(source: &[u8], i: usize, r: Record, first: &mut [u16], next: &mut [u16])
    requires source { IsSource (netlist source.now) }
    requires i_bound { i < (netlist source.now).size }
    requires r_value { r ≡ (netlist source.now).at i }
    requires linked { Linked (netlist source.now) first.old next.old (slots * (i + 1)) }
    ensures { Linked (netlist source.now) first.new next.new (slots * i) }
{
    link_later_slots(source, i, r, first, next);
    if r.kind == INPUT {
        return;
    }
    link_sink(source, i, r, 0, first, next);
}

// The chains of all slots, from the last record down.
pub(crate) fn link_all(source: &[u8], n: usize, first: &mut [u16], next: &mut [u16])
    requires source { IsSource (netlist source.now) }
    requires n_value { n ≡ record_count source.now }
    requires linked { Linked (netlist source.now) first.old next.old (slots * n) }
    ensures { Linked (netlist source.now) first.new next.new 0 }
{
    for i in (0..n).rev() {
        link_slots(source, i, netlist::record_at(source, i), first, next);
    }
}

// How far the record of slot p stands above level low.
pub fn distance(source: &[u8], low: u16, p: usize) -> usize
    requires { Above (netlist source.now) low p }
    ensures { (result ≡ ((netlist source.now).at (p / slots)).level - low) × (result < 65536) }
{
    usize::from(netlist::level_at(source, p / SLOTS) - low)
}

impl Chains<'_> {
    // The row of d's net, filled along the chain of its sinks; where they stand is handed back.
    pub fn fill_row(self, source: &[u8], d: usize, row: &mut [u32; DISTANCES]) -> Reach
        requires chained { Chained (netlist source.now) self.first.now self.next.now d self.end }
        requires d_bound { d < (netlist source.now).size }
        requires row_value { row.old ≡ replicate (suc top_level) 0 }
        ensures filled { Filled (netlist source.now) d row.new result.far }
        ensures in_stretches { InStretches row.new (suc top_level) result.stretches }
    {
        let low = netlist::level_at(source, d);
        let mut far: usize = 0;
        let mut stretches: u64 = 0;
        let mut p = usize::from(self.first[d]);
        while p < self.end {
            let k = distance(source, low, p);
            p = usize::from(self.next[p]);
            row[k] += 1;
            far = far.max(k);
            stretches = stretches::with_stretch(stretches, k);
        }
        Reach { far, stretches }
    }

    // The sinks of d, along its chain.
    pub fn of_driver(self, source: &[u8], d: usize) -> Chain
        requires chained { Chained (netlist source.now) self.first.now self.next.now d self.end }
        requires d_bound { d < (netlist source.now).size }
        ensures { ChainIs (netlist source.now) d result }
    {
        let p = usize::from(self.first[d]);
        if self.end <= p {
            return Chain::Empty;
        }
        let low = netlist::level_at(source, d);
        let a = distance(source, low, p);
        let q = usize::from(self.next[p]);
        if self.end <= q {
            return Chain::Short(a, 0);
        }
        if self.end <= usize::from(self.next[q]) {
            let b = distance(source, low, q);
            return Chain::Short(a.max(b), a.min(b));
        }
        Chain::Long
    }
}
