// Reading into lent memory: the programs read their input and their files into arrays of their own. Inline, so that the compiler knows
// how long a part of such an array can be.
#![tactic(auto)]

ghost use Rattle.std.specs.Prelude.{◌≤◌, length};

use std::fs;
use std::io::Read;
use std::rt::Files;

// Reads until the area is full, or the input ends or cannot be read. The part of the area that was filled.
#[inline(always)]
pub fn read_full<'a, R: Read>(input: &mut R, area: &'a mut [u8]) -> &'a [u8]
    ensures { length result.now ≤ length area.old }
{
    let mut done = 0;
    while done < area.len() {
        match input.read(&mut area[done..]) {
            Ok(n) if n > 0 => done += n,
            _ => break,
        }
    }
    &area[..done]
}

// The first bytes of a file, as many as the area has room for; none where it cannot be opened, or read from its start.
#[inline(always)]
pub fn read_file<'a>(rt: &impl Files, name: &str, area: &'a mut [u8]) -> &'a [u8]
    ensures { length result.now ≤ length area.old }
{
    match fs::open(rt, name) {
        Ok(mut file) => read_full(&mut file, area),
        Err(_) => &[],
    }
}
