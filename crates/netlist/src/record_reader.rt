// The record reader: a record from its ten bytes, and the ten bytes of one record.
ghost use Rattle.std.specs.Prelude.{◌≡◌, ◌+◌, ◌<◌, length};
ghost use Rattle.netlist.specs.Kinds.{width};
ghost use Rattle.netlist.specs.Records.{field, decode, record_at, record_count, record_bytes};

use crate::{Record, WIDTH};

// The two-byte field at a place, low byte first.
pub fn two_bytes(bytes: &[u8], at: usize) -> u16
    requires { at + 1 < length bytes.now }
    ensures { result ≡ field bytes.now at }
{
    u16::from_le_bytes([bytes[at], bytes[at + 1]])
}

// A record from its ten bytes.
fn read_record(part: &[u8]) -> Record
    requires { length part.now ≡ width }
    ensures { result ≡ decode part.now }
{
    Record {
        kind: part[0],
        inversion: part[1],
        level: two_bytes(part, 2),
        slots: [two_bytes(part, 4), two_bytes(part, 6), two_bytes(part, 8)],
    }
}

// The ten bytes of record k.
pub(crate) fn record_part<'a>(bytes: &'a [u8], k: usize) -> &'a [u8]
    requires { k < record_count bytes.now }
    ensures { result.now ≡ record_bytes bytes.now k }
{
    let at = WIDTH * k;
    &bytes[at..at + WIDTH]
}

// A record within the end.
pub fn read_at(bytes: &[u8], k: usize) -> Record
    requires { k < record_count bytes.now }
    ensures { result ≡ record_at bytes.now k }
{
    read_record(record_part(bytes, k))
}

// The kind of a record within the end.
pub fn kind_within(bytes: &[u8], k: usize) -> u8
    requires { k < record_count bytes.now }
    ensures { result ≡ (record_at bytes.now k).kind }
{
    read_at(bytes, k).kind
}
