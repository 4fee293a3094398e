// Check 17: how many slots each record feeds.
ghost use Rattle.std.specs.Prelude.{◌≡◌, ◌<◌, ◌≤◌, length};
ghost use Rattle.facts.specs.Answers.{numbered};
ghost use Rattle.facts.specs.Checks.{scan};
ghost use Rattle.netlist.specs.Capacities.{Allowed};
ghost use Rattle.netlist.specs.Records.{netlist, record_count};
ghost use Rattle.verifier.specs.PrivateWalking.{Walkable};
ghost use Rattle.verifier.specs.PrivateFeeding.{count_check, fed_once, FedAtMost};

use facts::{Check, Refusal};
use netlist::{Capacities, GATE_CAPACITY};

// Where a count of check 17 stops: one above the largest capacity, an input's.
const STOP: u16 = netlist::MOST_INPUT_CAPACITY as u16 + 1;

// One more slot that x feeds, up to the stop.
pub(crate) fn feed(counts: &mut [u16], x: usize)
    requires { x < length counts.old }
    ensures { counts.new ≡ fed_once counts.old x }
{
    let count = counts[x];
    if count < STOP {
        counts[x] = count + 1;
    }
}

// The largest count of the records from `from` on, below `to`.
fn most_fed(counts: &[u16], from: u32, to: u32) -> u16
    requires { to ≤ length counts.now }
    ensures { FedAtMost counts.now from to result }
{
    let mut most: u16 = 0;
    for k in from..to {
        most = most.max(counts[k as usize]);
    }
    most
}

// Check 17 of the first m records, rising, by the counts.
fn first_overfed(
    capacities: Capacities,
    mapped: &[u8],
    counts: &[u16],
    m: u32,
) -> Result<(), Refusal>
    requires allowed { Allowed capacities }
    requires m_in_bounds { m ≤ length counts.now }
    ensures { numbered result ≡ scan (count_check capacities (netlist mapped.now) counts.now) 0 m }
{
    for k in 0..m {
        let fed = u32::from(counts[k as usize]);
        if !netlist::may_feed(mapped, capacities, k as usize, fed) {
            return Err(Refusal {
                check: Check::Capacity,
                place: k,
            });
        }
    }
    Ok(())
}

// Check 17 of the first m records, of which those from n on are buffers. Where no buffer feeds too many slots, the first n records are enough; they pass at once if none feeds more than a gate may.
pub(crate) fn check_counts(
    capacities: Capacities,
    mapped: &[u8],
    counts: &[u16],
    n: u32,
    m: u32,
) -> Result<(), Refusal>
    requires allowed { Allowed capacities }
    requires walkable { Walkable n (netlist mapped.now) }
    requires n_le_m { (n ≤ m) × (m ≡ record_count mapped.now) }
    requires m_in_bounds { m ≤ length counts.now }
    ensures { numbered result ≡ scan (count_check capacities (netlist mapped.now) counts.now) 0 m }
{
    if capacities.buffer < u32::from(most_fed(counts, n, m)) {
        return first_overfed(capacities, mapped, counts, m);
    }
    if u32::from(most_fed(counts, 0, n)) <= GATE_CAPACITY {
        return Ok(());
    }
    first_overfed(capacities, mapped, counts, n)
}
