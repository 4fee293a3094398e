// The capacities as a program reads them (specification 7.1).
ghost use Rattle.std.specs.Prelude.{◌≡◌, ◌<◌, get_or};
ghost use Rattle.netlist.specs.CapacityBytes.{capacities_in};

use crate::Capacities;

// Bytes that they take.
pub const CAPACITY_BYTES: usize = 3;

// Byte k; a missing one counts as 0.
fn byte_or_zero(bytes: &[u8], k: usize) -> u32
    ensures { (result ≡ get_or bytes.now k 0) × (result < 256) }
{
    u32::from(bytes.get(k).copied().unwrap_or(0))
}

// One byte for s, then two for b, low byte first.
pub fn read_capacities(bytes: &[u8]) -> Capacities
    ensures { result ≡ capacities_in bytes.now }
{
    Capacities {
        buffer: byte_or_zero(bytes, 0),
        input: byte_or_zero(bytes, 1) + 256 * byte_or_zero(bytes, 2),
    }
}
