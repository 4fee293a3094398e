// The record writer: a record into its ten bytes, and a level alone.
ghost use Rattle.std.specs.Prelude.{◌≡◌, ◌+◌, ◌*◌, ◌≤◌, length};
ghost use Rattle.facts.specs.Areas.{put};
ghost use Rattle.netlist.specs.Kinds.{width};
ghost use Rattle.netlist.specs.Bytes.{encode, with_level};

use crate::{LEVEL_PLACE, Record, WIDTH, slot};

// A record into its ten bytes.
fn store(part: &mut [u8], r: Record)
    requires { length part.old ≡ width }
    ensures { part.new ≡ encode r }
{
    part[0] = r.kind;
    part[1] = r.inversion;
    part[2..4].copy_from_slice(&r.level.to_le_bytes());
    part[4..6].copy_from_slice(&slot(r, 0).to_le_bytes());
    part[6..8].copy_from_slice(&slot(r, 1).to_le_bytes());
    part[8..10].copy_from_slice(&slot(r, 2).to_le_bytes());
}

// A record at its place in the area.
pub fn write_record(area: &mut [u8], x: usize, r: Record)
    requires { width * x + width ≤ length area.old }
    ensures { area.new ≡ put area.old (width * x) (encode r) }
{
    let at = WIDTH * x;
    store(&mut area[at..at + WIDTH], r);
}

// The level of record x in the area.
pub fn write_level(area: &mut [u8], x: usize, level: u16)
    requires { width * x + width ≤ length area.old }
    ensures { area.new ≡ with_level area.old x level }
{
    let at = WIDTH * x + LEVEL_PLACE;
    area[at..at + 2].copy_from_slice(&level.to_le_bytes());
}
