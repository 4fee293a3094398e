// The checks and the area of a list of counts.
ghost use Rattle.std.specs.Prelude.{◌≡◌, ◌*◌, ◌<◌, length, get_or};
ghost use Rattle.facts.specs.Answers.{Passed, numbered};
ghost use Rattle.facts.specs.Checks.{scan};
ghost use Rattle.facts.specs.Bytes.{four};
ghost use Rattle.facts.specs.Lists.{joined};
ghost use Rattle.nets.specs.Counts.{index_count, index_at, bad_lists, index_check, list_checks, counts_answer, counts_area};
ghost use Rattle.nets.specs.PrivateCounts.{IndicesIn};

use crate::sinks::{Chains, RECORDS, SINKS};
use crate::{sinks, trees};
use facts::{Check, Refusal};
use fanout::DISTANCES;
use netlist::{Capacities, SLOTS, UNUSED, record_reader};

// The most indices of a list.
const INDEX_LIMIT: usize = 65535;

// Index k of a list.
fn index_at(records: &[u8], k: usize) -> usize
    requires { k < index_count records.now }
    ensures { (result ≡ index_at records.now k) × (result < 65536) }
{
    usize::from(record_reader::two_bytes(records, 2 * k))
}

// Check 21.
fn bad_lists(records: &[u8], counts: &[u8]) -> bool
    ensures { result ≡ bad_lists records.now counts.now }
{
    records.len() % 2 != 0 || INDEX_LIMIT < records.len() / 2 || counts.len() != 2 * records.len()
}

// Check 20 of each index, rising.
fn check_indices(source: &[u8], records: &[u8]) -> Result<(), Refusal>
    requires { index_count records.now < 65536 }
    ensures { numbered result ≡ scan (index_check source.now records.now) 0 (index_count records.now) }
{
    let n = records.len() / 2;
    for k in 0..n {
        let d = index_at(records, k);
        if !netlist::is_driver(netlist::kind_at(source, d)) {
            return Err(Refusal {
                check: Check::NoDriver,
                place: k as u32,
            });
        }
    }
    Ok(())
}

// Checks 21 and 20.
fn check_lists(source: &[u8], records: &[u8], counts: &[u8]) -> Result<(), Refusal>
    ensures { numbered result ≡ list_checks source.now records.now counts.now }
{
    if bad_lists(records, counts) {
        return Err(Refusal {
            check: Check::ListLengths,
            place: 0,
        });
    }
    check_indices(source, records)
}

// Checks 1, 26, 2 to 7, 21 and 20.
#[tactic(auto, unfolding(crate::specs::Counts::counts_answer))]
pub(crate) fn check_counts(
    source: &[u8],
    capacities: Capacities,
    records: &[u8],
    counts: &[u8],
) -> Result<(), Refusal>
    ensures { numbered result ≡ counts_answer source.now capacities records.now counts.now }
{
    netlist::check_input(source, capacities)?;
    check_lists(source, records, counts)
}

// The number of each index of a list, in four bytes.
fn write_counts(records: &[u8], totals: &[u32; RECORDS], counts: &mut [u8])
    requires indices_in { IndicesIn records.now }
    requires counts_len { length counts.old ≡ 4 * index_count records.now }
    ensures { counts.new ≡ joined (λ k. four (get_or totals.now (index_at records.now k) 0)) (index_count records.now) }
{
    for k in 0..records.len() / 2 {
        let d = index_at(records, k);
        let total = totals[d];
        facts::write_four(counts, k, total);
    }
}

// The counts of a list that passes all checks.
pub(crate) fn write_list(source: &[u8], capacities: Capacities, records: &[u8], counts: &mut [u8])
    requires { counts_answer source.now capacities records.now counts.old ≡ Passed }
    ensures { counts.new ≡ counts_area source.now capacities records.now counts.old }
{
    let n = netlist::record_count(source);
    let end = SLOTS * n;
    let mut first = [0u16; RECORDS];
    sinks::empty_chains(n, end as u16, &mut first);
    let mut next = [UNUSED; SINKS];
    sinks::link_all(source, n, &mut first, &mut next);
    let mut row = [0u32; DISTANCES];
    let mut totals = [0u32; RECORDS];
    // A net without a tree has its number too.
    let _ = trees::count_each(
        source,
        capacities,
        n,
        Chains {
            first: &first,
            next: &next,
            end,
        },
        &mut row,
        &mut totals,
    );
    write_counts(records, &totals, counts);
}
