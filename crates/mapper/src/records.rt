// Records written into the area.
ghost use Rattle.std.specs.Prelude.{◌≡◌, ◌+◌, ◌*◌, ◌≤◌, length};
ghost use Rattle.netlist.specs.Kinds.{width, slots};
ghost use Rattle.netlist.specs.Records.{record_count};
ghost use Rattle.facts.specs.Areas.{put};
ghost use Rattle.netlist.specs.Bytes.{encode, encoded};
ghost use Rattle.mapper.specs.Mapped.{buffer_of};
ghost use Rattle.mapper.specs.PrivateWriting.{relinked, relinked_at};

use netlist::{BUFFER, Record, SLOTS, UNUSED, record_writer};

// A buffer at a level, on its fanin.
pub(crate) fn buffer_of(level: u16, fanin: u16) -> Record
    ensures { result ≡ buffer_of level fanin }
{
    Record {
        kind: BUFFER,
        inversion: 0,
        level,
        slots: [fanin, UNUSED, UNUSED],
    }
}

// Record r at its place i in the area, its slots as the array of parents has them.
fn write_relinked(area: &mut [u8], i: usize, r: Record, parents: &[u16])
    requires { (width * i + width ≤ length area.old) × (slots * i + slots ≤ length parents.now) }
    ensures { area.new ≡ put area.old (width * i) (encode (relinked r parents.now i)) }
{
    let at = SLOTS * i;
    let slots = [parents[at], parents[at + 1], parents[at + 2]];
    record_writer::write_record(area, i, Record { slots, ..r });
}

// The source's records at their old indices.
pub(crate) fn write_source(source: &[u8], parents: &[u16], area: &mut [u8])
    requires source_in_bounds { slots * record_count source.now ≤ length parents.now }
    requires source_in_bounds_2 { width * record_count source.now ≤ length area.old }
    ensures { area.new ≡ put area.old 0 (encoded (relinked_at source.now parents.now) (record_count source.now)) }
{
    for i in 0..netlist::record_count(source) {
        write_relinked(area, i, netlist::record_at(source, i), parents);
    }
}
