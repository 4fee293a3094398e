// Levels worked out (specification 2.7): how low each record may stand over its fanins.
ghost use Rattle.std.specs.Prelude.{◌≡◌, ◌≤◌, length};
ghost use Rattle.facts.specs.Sums.{largest};
ghost use Rattle.netlist.specs.Kinds.{slots};
ghost use Rattle.netlist.specs.Records.{netlist, record_count};
ghost use Rattle.levels.specs.PrivateLevels.{entry_place, fanin_entry, EntriesInside, Unraised, WorkedOut, WithOutputs};

use crate::height_table;
use netlist::{OUTPUT, Record, UNUSED};
use std::hint::select_unpredictable;

// Where a slot's fanin has its entry: an unused slot has entry n.
fn entry_of(slot: u16, n: usize) -> usize
    ensures { result ≡ entry_place n slot }
{
    if slot == UNUSED { n } else { usize::from(slot) }
}

// The largest entry of a record's slots.
fn over_fanins(reach: &[u16], n: usize, r: Record) -> u16
    requires { EntriesInside reach.now n r }
    ensures { result ≡ largest (fanin_entry reach.now n r) slots }
{
    let mut level: u16 = 0;
    for slot in r.slots {
        level = level.max(reach[entry_of(slot, n)]);
    }
    level
}

// The same, of an output by its one used slot.
fn level_of(reach: &[u16], n: usize, r: Record) -> u16
    requires { EntriesInside reach.now n r }
    ensures { result ≡ largest (fanin_entry reach.now n r) slots }
{
    if r.kind == OUTPUT {
        return reach[entry_of(r.slots[0], n)];
    }
    over_fanins(reach, n, r)
}

// How low each record may stand over its fanins; in the other array, how low its sinks may, in the place of their number. Answers the level that all outputs share.
pub(crate) fn raise(
    source: &[u8],
    capacity: usize,
    n: usize,
    reach: &mut [u16],
    levels: &mut [u16],
) -> u16
    requires unraised { Unraised source.now capacity reach.old levels.old }
    requires n_value { n ≡ record_count source.now }
    ensures { WorkedOut source.now capacity levels.old levels.new result }
{
    let row = height_table::row_of(capacity);
    let mut top: u16 = 0;
    for k in 0..n {
        let r = netlist::record_reader::read_at(source, k);
        let level = level_of(reach, n, r);
        top = top.max(select_unpredictable(r.kind == OUTPUT, level, 0));
        reach[k] = level + height_table::rise(&row, reach[k]);
        levels[k] = level;
    }
    top
}

// The outputs' level for every output.
pub(crate) fn set_outputs(source: &[u8], n: usize, top: u16, levels: &mut [u16])
    requires n_value { n ≡ record_count source.now }
    requires n_in_bounds { n ≤ length levels.old }
    ensures { WithOutputs (netlist source.now) top levels.old levels.new }
{
    for k in 0..n {
        let kind = netlist::record_reader::kind_within(source, k);
        levels[k] = select_unpredictable(kind == OUTPUT, top, levels[k]);
    }
}
