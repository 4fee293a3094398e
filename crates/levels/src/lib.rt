// Least levels (specification 2.7, 4.10): a source's copy in which every record stands as low as the heights of the nets let it.
#![tactic(auto)]

ghost use Rattle.std.specs.Prelude.{◌≡◌, ◌≤◌};
ghost use Rattle.facts.specs.Answers.{numbered};
ghost use Rattle.facts.specs.Checks.{◌and_then◌, unless_refused};
ghost use Rattle.netlist.specs.Checks.{structure_checks};
ghost use Rattle.levels.specs.Levels.{least_checks, least_copy, levels_answer, levels_area};
ghost use Rattle.levels.specs.PrivateLevels.{Unraised};

use facts::Refusal;
use netlist::SOURCE_LIMIT;

mod counting;
mod height_table;
mod raising;
mod writing;

// An entry for every record of the largest source, and one for unused slots.
const ENTRIES: usize = SOURCE_LIMIT + 1;

// Checks 22 and 23 of a source whose sinks are counted; accepted, the source with its least levels.
fn level_counted(
    source: &[u8],
    capacity: u32,
    reach: &mut [u16],
    levels: &mut [u16],
    area: &mut [u8],
) -> Result<(), Refusal>
    requires { Unraised source.now capacity reach.old levels.old }
    ensures value { numbered result ≡ least_checks source.now capacity area.old }
    ensures area_after { area.new ≡ unless_refused (least_checks source.now capacity area.old) (least_copy source.now capacity) area.old }
{
    let n = netlist::record_count(source) as u32;
    let top = raising::raise(source, capacity as usize, n as usize, reach, levels);
    raising::set_outputs(source, n as usize, top, levels);
    writing::check_and_write(source, n, levels, area)
}

// Checks 2 to 6, 22 and 23; accepted, the source with its least levels.
fn level_source(source: &[u8], capacity: u32, area: &mut [u8]) -> Result<(), Refusal>
    requires { (2 ≤ capacity) × (capacity ≤ 4) }
    ensures value { numbered result ≡ (structure_checks source.now and_then least_checks source.now capacity area.old) }
    ensures area_after { area.new ≡ unless_refused (structure_checks source.now and_then least_checks source.now capacity area.old) (least_copy source.now capacity) area.old }
{
    let mut reach = [0u16; ENTRIES];
    counting::check_structured(source, &mut reach)?;
    let mut levels = [0u16; SOURCE_LIMIT];
    level_counted(source, capacity, &mut reach, &mut levels, area)
}

// Least levels: checks 1 to 6, 22 and 23; accepted, the area holds the source with its least levels.
pub fn assign_levels(source: &[u8], capacity: u32, area: &mut [u8]) -> Result<(), Refusal>
    ensures answer { numbered result ≡ levels_answer source.now capacity area.old }
    ensures area { area.new ≡ levels_area source.now capacity area.old }
{
    netlist::check_capacity(capacity)?;
    level_source(source, capacity, area)
}
