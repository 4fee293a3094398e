// Where one driver's block stands.
ghost use Rattle.std.specs.Prelude.{◌≡◌, ◌≤◌};
ghost use Rattle.facts.specs.Answers.{Passed};
ghost use Rattle.netlist.specs.Records.{netlist};
ghost use Rattle.netlist.specs.Checks.{input_checks};
ghost use Rattle.mapper.specs.Mapped.{block_start};
ghost use Rattle.mapper.specs.View.{no_ends, block_ends};
ghost use Rattle.mapper.specs.PrivateWriting.{Sized, Mappable};

use crate::Ends;
use fanout::DISTANCES;
use netlist::{Capacities, MAPPED_LIMIT, SLOTS, UNUSED};
use nets::sinks::{RECORDS, SINKS};
use nets::{sinks, trees};

// No block.
fn no_ends() -> Ends
    ensures { result ≡ no_ends }
{
    Ends { from: 0, to: 0 }
}

// The record at which the block of record m begins: behind the source and the trees before it.
fn start_of(source: &[u8], capacities: Capacities, n: usize, totals: &[u32], m: usize) -> usize
    requires mappable { Mappable source.now capacities n totals.now }
    requires m_le_n { m ≤ n }
    ensures { result ≡ block_start (netlist source.now) capacities m }
{
    n + trees::sum_below(totals, m)
}

// The block of record d of a source that passes 1, 26 and 2 to 9.
fn ends_of(source: &[u8], capacities: Capacities, n: usize, totals: &[u32], d: usize) -> Ends
    requires { Mappable source.now capacities n totals.now }
    ensures { result ≡ block_ends source.now capacities d }
{
    if n <= d {
        return no_ends();
    }
    if netlist::is_driver(netlist::kind_at(source, d)) {
        let from = start_of(source, capacities, n, totals, d);
        let to = start_of(source, capacities, n, totals, d + 1);
        return Ends { from, to };
    }
    no_ends()
}

// Check 9 of a source whose trees are counted, and the block of record d.
fn counted_ends(
    source: &[u8],
    capacities: Capacities,
    n: usize,
    totals: &[u32],
    total: usize,
    d: usize,
) -> Ends
    requires { Sized source.now capacities n totals.now total }
    ensures { result ≡ block_ends source.now capacities d }
{
    if MAPPED_LIMIT < n + total {
        return no_ends();
    }
    ends_of(source, capacities, n, totals, d)
}

// Check 8 of a source that passes 1, 26 and 2 to 7, and the block of record d.
fn source_ends(source: &[u8], capacities: Capacities, d: usize) -> Ends
    requires { input_checks source.now capacities ≡ Passed }
    ensures { result ≡ block_ends source.now capacities d }
{
    let n = netlist::record_count(source);
    let end = SLOTS * n;
    let mut first = [0u16; RECORDS];
    sinks::empty_chains(n, end as u16, &mut first);
    let mut next = [UNUSED; SINKS];
    let mut row = [0u32; DISTANCES];
    let mut totals = [0u32; RECORDS];
    let sized = trees::size_trees(
        source,
        capacities,
        n,
        end,
        &mut first,
        &mut next,
        &mut row,
        &mut totals,
    );
    match sized {
        Ok(total) => counted_ends(source, capacities, n, &totals, total, d),
        Err(_) => no_ends(),
    }
}

// Where the block of record d stands.
pub(crate) fn block_ends(source: &[u8], capacities: Capacities, d: usize) -> Ends
    ensures { result ≡ block_ends source.now capacities d }
{
    match netlist::check_input(source, capacities) {
        Ok(()) => source_ends(source, capacities, d),
        Err(_) => no_ends(),
    }
}
