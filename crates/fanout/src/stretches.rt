// Stretches of distances, and the way down a row over those without sinks. A word has a bit for each stretch with sinks.
ghost use Rattle.std.specs.Prelude.{◌≡◌, suc, ◌/◌, ◌%◌, ◌^◌, ◌<◌, ◌≤◌};
ghost use Rattle.std.specs.Int.Bits.{bit_or};
ghost use Rattle.netlist.specs.Kinds.{top_level};
ghost use Rattle.fanout.specs.PrivateStretches.{stretch, InStretches, NextByStretch, NextSinks};

use crate::DISTANCES;

// Distances of a stretch.
const STRETCH: usize = 64;

// The stretches with that of a distance.
pub fn with_stretch(stretches: u64, distance: usize) -> u64
    requires { distance ≤ top_level }
    ensures { result ≡ bit_or stretches (2 ^ (distance / stretch)) }
{
    stretches | 1u64 << (distance / STRETCH)
}

// A word's bits below bit n.
fn lowest(word: u64, n: usize) -> u64
    requires { n < stretch }
    ensures { result ≡ word % 2 ^ n }
{
    word & (1u64 << n) - 1
}

// The next distance below x whose stretch has sinks, or 1.
fn next_by_stretch(stretches: u64, x: usize) -> usize
    requires { (1 < x) × (x ≤ top_level) }
    ensures { NextByStretch stretches x result }
{
    if x % STRETCH != 0 {
        return x - 1;
    }
    match lowest(stretches, x / STRETCH).checked_ilog2() {
        Some(highest) => STRETCH * highest as usize + (STRETCH - 1),
        None => 1,
    }
}

// The next distance below k with sinks, or 1.
pub(crate) fn next_sinks(row: &[u32; DISTANCES], stretches: u64, k: usize) -> usize
    requires lt_k { (1 < k) × (k ≤ suc top_level) }
    requires in_stretches { InStretches row.now k stretches }
    ensures { NextSinks row.now k result }
{
    let mut x = k - 1;
    while 1 < x && row[x] == 0 {
        x = next_by_stretch(stretches, x);
    }
    x
}
