// The nets of a source, counted: the number of each, and check 8.
ghost use Rattle.std.specs.Prelude.{◌≡◌, suc, min, ◌*◌, ◌<◌, ◌≤◌, cond, length, get_or, set, replicate, IfOk};
ghost use Rattle.facts.specs.Answers.{Passed, numbered};
ghost use Rattle.facts.specs.Sums.{sum};
ghost use Rattle.netlist.specs.Kinds.{slots, top_level, source_limit};
ghost use Rattle.netlist.specs.Capacities.{Allowed};
ghost use Rattle.netlist.specs.Records.{netlist, record_count};
ghost use Rattle.netlist.specs.Checks.{input_checks};
ghost use Rattle.fanout.specs.Nets.{fewest_in_all};
ghost use Rattle.fanout.specs.Answer.{no_tree};
ghost use Rattle.nets.specs.Checks.{tree_checks};
ghost use Rattle.nets.specs.PrivateChains.{Linked, Chained, Measured};
ghost use Rattle.nets.specs.PrivateCounts.{NetNumbers};

use crate::sinks::{self, Chain, Chains};
use facts::{Check, Refusal};
use fanout::{DISTANCES, NO_TREE, TreeTotals};
use netlist::Capacities;

// d's net: the nodes left at distance 1 and its buffers; one or two sinks have a line of buffers, one at each distance below the largest. The row is all zero before and after.
fn measure(
    source: &[u8],
    capacities: Capacities,
    chains: Chains<'_>,
    d: usize,
    row: &mut [u32; DISTANCES],
) -> TreeTotals
    requires chained { Chained (netlist source.now) chains.first.now chains.next.now d chains.end }
    requires allowed { Allowed capacities }
    requires d_bound { d < (netlist source.now).size }
    requires row_value { row.old ≡ replicate (suc top_level) 0 }
    ensures measured { Measured (netlist source.now) capacities d result }
    ensures row_after { row.new ≡ replicate (suc top_level) 0 }
{
    match chains.of_driver(source, d) {
        Chain::Empty => TreeTotals {
            nodes: 0,
            buffers: 0,
        },
        Chain::Short(top, other) => TreeTotals {
            nodes: 1 + u32::from(other == 1),
            buffers: top as u32 - 1,
        },
        Chain::Long => {
            let reach = chains.fill_row(source, d, row);
            fanout::walk(capacities.buffer, reach, false, row)
        }
    }
}

// Stores the number of d's net, its buffers or what stands for no tree, and answers the first driver without a tree so far.
fn keep_number(totals: &mut [u32], d: usize, fits: bool, buffers: u32, stop: usize) -> usize
    requires { d < length totals.old }
    ensures value { result ≡ cond fits stop (min stop d) }
    ensures totals_after { totals.new ≡ set totals.old d (cond fits buffers no_tree) }
{
    if fits {
        totals[d] = buffers;
        return stop;
    }
    totals[d] = NO_TREE;
    stop.min(d)
}

// The nets of all n records, each counted once: their numbers into the array of totals, and check 8, with the buffers of all trees. The row is all zero before and after.
pub(crate) fn count_each(
    source: &[u8],
    capacities: Capacities,
    n: usize,
    chains: Chains<'_>,
    row: &mut [u32; DISTANCES],
    totals: &mut [u32],
) -> Result<usize, Refusal>
    requires chained { Chained (netlist source.now) chains.first.now chains.next.now 0 chains.end }
    requires allowed { Allowed capacities }
    requires n_value { (n ≡ record_count source.now) × (n ≤ length totals.old) }
    requires row_value { row.old ≡ replicate (suc top_level) 0 }
    ensures value { numbered result ≡ tree_checks (netlist source.now) capacities }
    ensures total { IfOk result (λ total. total ≡ fewest_in_all (netlist source.now) capacities) }
    ensures row_after { row.new ≡ replicate (suc top_level) 0 }
    ensures net_numbers { NetNumbers (netlist source.now) capacities n totals.new }
{
    let mut stop = n;
    let mut total: usize = 0;
    for d in 0..n {
        let tree = measure(source, capacities, chains, d, row);
        let fits = netlist::may_feed(source, capacities, d, tree.nodes);
        stop = keep_number(totals, d, fits, tree.buffers, stop);
        total += tree.buffers as usize;
    }
    if stop < n {
        return Err(Refusal {
            check: Check::NoTree,
            place: stop as u32,
        });
    }
    Ok(total)
}

// The sum of the first m numbers.
pub fn sum_below(totals: &[u32], m: usize) -> usize
    requires { (m ≤ length totals.now) × (m ≤ source_limit) }
    ensures { result ≡ sum (λ d. get_or totals.now d 0) m }
{
    totals[..m].iter().map(|total| *total as usize).sum()
}

// All nets of a source that passes 1, 26 and 2 to 7: its slots are linked, its nets counted, and check 8 made. The row is all zero before and after.
pub fn size_trees(
    source: &[u8],
    capacities: Capacities,
    n: usize,
    end: usize,
    first: &mut [u16],
    next: &mut [u16],
    row: &mut [u32; DISTANCES],
    totals: &mut [u32],
) -> Result<usize, Refusal>
    requires capacities_value { input_checks source.now capacities ≡ Passed }
    requires n_value { (n ≡ record_count source.now) × (n ≤ length totals.old) }
    requires end_value { end ≡ slots * n }
    requires linked { Linked (netlist source.now) first.old next.old (slots * n) }
    requires row_value { row.old ≡ replicate (suc top_level) 0 }
    ensures value { numbered result ≡ tree_checks (netlist source.now) capacities }
    ensures total { IfOk result (λ total. total ≡ fewest_in_all (netlist source.now) capacities) }
    ensures chained { Chained (netlist source.now) first.new next.new 0 end }
    ensures row_after { row.new ≡ replicate (suc top_level) 0 }
    ensures net_numbers { NetNumbers (netlist source.now) capacities n totals.new }
{
    sinks::link_all(source, n, first, next);
    let chains = Chains { first, next, end };
    count_each(source, capacities, n, chains, row, totals)
}
