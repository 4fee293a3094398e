// The price of a mapped netlist: its gates by their sinks, the buffers of each net by the nodes of its tree.
ghost use Rattle.std.specs.Prelude.{◌≡◌, ◌+◌, ◌*◌, ◌<◌, ◌≤◌};
ghost use Rattle.facts.specs.Sums.{sum};
ghost use Rattle.netlist.specs.Kinds.{mapped_limit, top_level};
ghost use Rattle.netlist.specs.Records.{netlist, record_count};
ghost use Rattle.fanout.specs.Nets.{tree_size};
ghost use Rattle.nets.specs.PrivateChains.{Chained};
ghost use Rattle.mapper.specs.PrivatePricing.{rest_price, level_price, tree_price, line_price, driver_price, same_buffers, both_are, same_gates, NodesCounted};

use crate::Job;
use fanout::DISTANCES;
use netlist::{AND, BUFFER, MAJORITY, OR};
use nets::sinks::Chains;
use prices::PriceTable;

// The price of the buffer that feeds the nodes left over, 0 if none are.
fn price_rest(prices: &PriceTable, rest: u32) -> u32
    ensures { (result ≡ rest_price prices.now.list rest) × (result ≤ 255) }
{
    u32::from(0 < rest) * prices.price_of(BUFFER, rest as usize)
}

// The price of the buffers one level below n nodes: n / s that feed s each, and one that feeds the rest, if any.
fn price_level(prices: &PriceTable, s: u32, n: u32) -> u32
    requires le_s { (2 ≤ s) × (s ≤ 4) }
    requires n_bound { n ≤ 4 * mapped_limit }
    ensures { result ≡ level_price prices.now.list s n }
{
    let full = fanout::divide(n, s);
    let rest = n - s * full;
    full * prices.price_of(BUFFER, s as usize) + price_rest(prices, rest)
}

// Whether a buffer costs the same at one, two, three and four slots.
fn same_buffers(prices: &PriceTable) -> bool
    ensures { result ≡ same_buffers prices.now.list }
{
    let one = prices.price_of(BUFFER, 1);
    let two = one == prices.price_of(BUFFER, 2);
    let three = one == prices.price_of(BUFFER, 3);
    let four = one == prices.price_of(BUFFER, 4);
    two & (three & four)
}

// The price of d's tree, distance by distance: the row counts its nodes.
fn price_distances(job: Job<'_>, d: usize, top: usize, row: &[u32; DISTANCES]) -> u32
    requires nodes_counted { NodesCounted (netlist job.source.now) job.capacities d row.now top }
    ensures { result ≡ tree_price job.entry.prices.now.list (netlist job.entry.source.now) job.entry.capacities d }
{
    let mut total: u32 = 0;
    for k in 2..top + 1 {
        total += price_level(job.prices, job.capacities.buffer, row[k]);
    }
    total
}

// The price of d's tree, which has so many buffers: where all cost the same, the distances are not looked at.
pub(crate) fn price_tree(
    job: Job<'_>,
    d: usize,
    size: usize,
    top: usize,
    row: &[u32; DISTANCES],
) -> u32
    requires nodes_counted { NodesCounted (netlist job.source.now) job.capacities d row.now top }
    requires size_value { size ≡ tree_size (netlist job.source.now) job.capacities d }
    ensures { result ≡ tree_price job.entry.prices.now.list (netlist job.entry.source.now) job.entry.capacities d }
{
    if same_buffers(job.prices) {
        return size as u32 * job.prices.price_of(BUFFER, 1);
    }
    price_distances(job, d, top, row)
}

// The price of a line of n buffers: the one below the other sink, if that stands beyond distance 1, feeds two slots, each other one.
pub(crate) fn price_line(prices: &PriceTable, n: usize, other: usize) -> u32
    requires { (n < top_level) × (other ≤ n + 1) }
    ensures { result ≡ line_price prices.now.list n other }
{
    let pairs = u32::from(1 < other);
    let singles = n as u32 - pairs;
    singles * prices.price_of(BUFFER, 1) + pairs * prices.price_of(BUFFER, 2)
}

// The price of record d of a source: a gate feeds one slot if it has a sink, else none; inputs and outputs cost nothing.
fn price_driver(job: Job<'_>, chains: Chains<'_>, d: usize) -> u32
    requires chained { Chained (netlist job.source.now) chains.first.now chains.next.now 0 chains.end }
    requires d_bound { d < record_count job.source.now }
    ensures { (result ≡ driver_price job.entry.prices.now.list (netlist job.entry.source.now) d) × (result ≤ 255) }
{
    let kind = netlist::kind_at(job.source, d);
    let has_sink = usize::from(chains.first[d]) < chains.end;
    job.prices.price_of(kind, usize::from(has_sink))
}

// Whether both prices of a kind are p.
fn both_are(prices: &PriceTable, p: u32, kind: u8) -> bool
    ensures { result ≡ both_are prices.now.list p kind }
{
    let none = p == prices.price_of(kind, 0);
    let one = p == prices.price_of(kind, 1);
    none & one
}

// Whether all gates cost p.
fn same_gates(prices: &PriceTable, p: u32) -> bool
    ensures { result ≡ same_gates prices.now.list p }
{
    let a = both_are(prices, p, AND);
    let b = both_are(prices, p, OR);
    let c = both_are(prices, p, MAJORITY);
    a & (b & c)
}

// The price of all records of a source, one by one.
fn price_drivers(job: Job<'_>, n: usize, chains: Chains<'_>) -> u32
    requires chained { Chained (netlist job.source.now) chains.first.now chains.next.now 0 chains.end }
    requires n_value { n ≡ record_count job.source.now }
    ensures { result ≡ sum (driver_price job.entry.prices.now.list (netlist job.entry.source.now)) n }
{
    let mut total: u32 = 0;
    for d in 0..n {
        total += price_driver(job, chains, d);
    }
    total
}

// The price of a source's gates: where all cost the same, their sinks are not looked at.
pub(crate) fn price_gates(job: Job<'_>, n: usize, chains: Chains<'_>) -> u32
    requires chained { Chained (netlist job.source.now) chains.first.now chains.next.now 0 chains.end }
    requires n_value { n ≡ record_count job.source.now }
    ensures { result ≡ sum (driver_price job.entry.prices.now.list (netlist job.entry.source.now)) n }
{
    let p = job.prices.price_of(AND, 0);
    if same_gates(job.prices, p) {
        return netlist::count_gates(job.source) as u32 * p;
    }
    price_drivers(job, n, chains)
}
