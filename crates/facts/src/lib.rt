// What every call shares and no netlist is needed for: why a call refuses, a fraction rounded, and a number written in four bytes.
#![tactic(auto)]

ghost use Rattle.std.specs.Prelude.{◌≡◌, ◌+◌, ◌*◌, ◌≤◌, length};
ghost use Rattle.facts.specs.Areas.{put};
ghost use Rattle.facts.specs.Bytes.{four};
ghost use Rattle.facts.specs.Rounding.{rounded};

pub mod refusal;

pub use refusal::{Check, Refusal};

// A fraction rounded to the nearest whole number, an exact half to the even neighbour; 0 where the whole is 0.
pub fn round(part: u32, whole: u32) -> u32
    ensures { result ≡ rounded part whole }
{
    if whole == 0 {
        return 0;
    }
    let down = part / whole;
    let rest = part % whole;
    let missing = whole - rest;
    if rest < missing {
        return down;
    }
    if missing < rest {
        return down + 1;
    }
    down + down % 2
}

// Number k of an area of numbers, four bytes each, low byte first.
pub fn write_four(area: &mut [u8], k: usize, n: u32)
    requires { 4 * k + 4 ≤ length area.old }
    ensures { area.new ≡ put area.old (4 * k) (four n) }
{
    let at = 4 * k;
    area[at..at + 4].copy_from_slice(&n.to_le_bytes());
}
