// Checks 22 and 23, and the copy of a source with its levels.
ghost use Rattle.std.specs.Prelude.{◌≡◌, ◌≤◌, length};
ghost use Rattle.facts.specs.Answers.{numbered};
ghost use Rattle.facts.specs.Checks.{scan, unless_refused};
ghost use Rattle.facts.specs.Sums.{largest};
ghost use Rattle.netlist.specs.Records.{record_count};
ghost use Rattle.levels.specs.Levels.{high_check, length_check, copy_checks, levelled};
ghost use Rattle.levels.specs.PrivateLevels.{entries};

use facts::{Check, Refusal};
use netlist::TOP_LEVEL;

// The largest of the first n levels.
fn highest(levels: &[u16], n: u32) -> u16
    requires { n ≤ length levels.now }
    ensures { result ≡ largest (entries levels.now) n }
{
    levels[..n as usize].iter().copied().max().unwrap_or(0)
}

// Check 22 of the first n records, rising.
fn first_high(levels: &[u16], n: u32) -> Result<(), Refusal>
    requires { n ≤ length levels.now }
    ensures { numbered result ≡ scan (high_check (entries levels.now)) 0 n }
{
    for k in 0..n {
        if TOP_LEVEL < levels[k as usize] {
            return Err(Refusal {
                check: Check::LeastLevel,
                place: k,
            });
        }
    }
    Ok(())
}

// Check 22 of the first n records by the largest level: which record comes first is asked only where one is too high.
fn check_high(levels: &[u16], n: u32) -> Result<(), Refusal>
    requires { n ≤ length levels.now }
    ensures { numbered result ≡ scan (high_check (entries levels.now)) 0 n }
{
    if highest(levels, n) <= TOP_LEVEL {
        return Ok(());
    }
    first_high(levels, n)
}

// The bytes of a source into an area of the same length. A loop, since here the library's copy would need `memmove` from outside.
fn copy_bytes(source: &[u8], area: &mut [u8])
    requires { length area.old ≡ length source.now }
    ensures { area.new ≡ source.now }
{
    for (k, &byte) in source.iter().enumerate() {
        area[k] = byte;
    }
}

// The source with the levels of an array.
fn write_levels(source: &[u8], n: usize, levels: &[u16], area: &mut [u8])
    requires n_value { n ≡ record_count source.now }
    requires n_in_bounds { n ≤ length levels.now }
    requires area_len { length area.old ≡ length source.now }
    ensures { area.new ≡ levelled (entries levels.now) source.now }
{
    copy_bytes(source, area);
    for (k, &level) in levels[..n].iter().enumerate() {
        netlist::record_writer::write_level(area, k, level);
    }
}

// Check 23; accepted, the source with its levels.
fn write_copy(source: &[u8], n: usize, levels: &[u16], area: &mut [u8]) -> Result<(), Refusal>
    requires n_value { n ≡ record_count source.now }
    requires n_in_bounds { n ≤ length levels.now }
    ensures value { numbered result ≡ length_check source.now area.old }
    ensures area_after { area.new ≡ unless_refused (length_check source.now area.old) (levelled (entries levels.now) source.now) area.old }
{
    if area.len() != source.len() {
        return Err(Refusal {
            check: Check::CopyLength,
            place: 0,
        });
    }
    write_levels(source, n, levels, area);
    Ok(())
}

// Checks 22 and 23; accepted, the source with its levels.
pub(crate) fn check_and_write(
    source: &[u8],
    n: u32,
    levels: &[u16],
    area: &mut [u8],
) -> Result<(), Refusal>
    requires n_value { n ≡ record_count source.now }
    requires n_in_bounds { n ≤ length levels.now }
    ensures value { numbered result ≡ copy_checks (entries levels.now) source.now area.old }
    ensures area_after { area.new ≡ unless_refused (copy_checks (entries levels.now) source.now area.old) (levelled (entries levels.now) source.now) area.old }
{
    check_high(levels, n)?;
    write_copy(source, n as usize, levels, area)
}
