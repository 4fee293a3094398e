// The nets written: buffers into the area, and what each sink hangs on.
ghost use Rattle.std.specs.Prelude.{◌≡◌, suc, ◌+◌, ◌*◌, ◌<◌, ◌≤◌, length, replicate};
ghost use Rattle.facts.specs.Sums.{sum};
ghost use Rattle.facts.specs.Areas.{put, onto};
ghost use Rattle.netlist.specs.Kinds.{width, top_level, mapped_limit};
ghost use Rattle.netlist.specs.Records.{netlist, record_count};
ghost use Rattle.netlist.specs.Bytes.{encoded, bytes_of};
ghost use Rattle.netlist.specs.PrivateBytes.{with_records};
ghost use Rattle.fanout.specs.Nets.{tree_size};
ghost use Rattle.mapper.specs.Mapped.{block_start, mapped_size, mapped};
ghost use Rattle.mapper.specs.PrivateWriting.{Ready, Stale, behind, level_record, line_parent, line_record, CountedNet, FirstParents, ParentsSet, ParentsWritten, on_parent, on_line, ParentsDue, NodeCounts, Writable, Wrote};
ghost use Rattle.nets.specs.PrivateChains.{Chained};
ghost use Rattle.mapper.specs.PrivatePricing.{tree_price, NodesCounted};

use crate::{Job, pricing, records};
use fanout::DISTANCES;
use netlist::{Capacities, record_writer};
use nets::sinks;
use nets::sinks::{Chain, Chains};

// The buffers of one net as they are written: the record behind the last, and their price.
#[derive(Clone, Copy)]
struct NetBlock {
    after: usize,
    price: u32,
}

// The row, all zero again: only distances up to top were touched.
fn clear_row(top: usize, row: &mut [u32; DISTANCES])
    requires { Stale row.old top }
    ensures { row.new ≡ replicate (suc top_level) 0 }
{
    row[..=top].fill(0);
}

// What node q of distance k hangs on, where the first node hangs on base: at distance 1 all hang on the driver.
fn parent_of(base: u16, s: u32, k: usize, q: u32) -> u16
    requires le_s { (2 ≤ s) × (s ≤ 4) }
    requires q_bound { base + behind s k q < 65536 }
    ensures { result ≡ base + behind s k q }
{
    let back = fanout::divide(q, s);
    if k < 2 { base } else { base + back as u16 }
}

// The buffers of distance k, from record at on.
fn write_level(area: &mut [u8], s: u32, k: usize, at: usize, level: u16, base: u16, n: u32)
    requires le_s { (2 ≤ s) × (s ≤ 4) }
    requires n_in_bounds { width * (at + n) ≤ length area.old }
    requires n_bound { base + n < 65536 }
    ensures { area.new ≡ put area.old (width * at) (encoded (level_record s k level base) n) }
{
    for j in 0..n {
        record_writer::write_record(
            area,
            at + j as usize,
            records::buffer_of(level, parent_of(base, s, k, j)),
        );
    }
}

// The buffers of d's tree from record start on, by distance; base keeps what each distance's first node hangs on.
fn write_buffers(
    source: &[u8],
    capacities: Capacities,
    d: usize,
    start: usize,
    top: usize,
    row: &[u32; DISTANCES],
    base: &mut [u16; DISTANCES],
    area: &mut [u8],
) -> usize
    requires counted_net { CountedNet (netlist source.now) capacities d row.now top }
    requires start_value { start ≡ block_start (netlist source.now) capacities d }
    requires base_len { length base.old ≡ suc top_level }
    requires capacities_in_bounds { width * mapped_size (netlist source.now) capacities ≤ length area.old }
    ensures value { result ≡ block_start (netlist source.now) capacities (d + 1) }
    ensures first_parents { FirstParents (netlist source.now) capacities d base.new }
    ensures area_after { area.new ≡ with_records (mapped (netlist source.now) capacities) start (tree_size (netlist source.now) capacities d) area.old }
{
    let low = netlist::level_at(source, d);
    let mut at = start;
    let mut from = d as u16;
    for k in 1..top + 1 {
        let n = row[k];
        base[k] = from;
        write_level(area, capacities.buffer, k, at, low + k as u16, from, n);
        from = at as u16;
        at += n as usize;
    }
    at
}

// The sinks of d, along its chain: each hangs behind the buffers and the earlier sinks of its distance, and its parent takes the place of its next sink.
fn set_parents(
    source: &[u8],
    capacities: Capacities,
    end: usize,
    first: &[u16],
    next: &mut [u16],
    d: usize,
    base: &[u16; DISTANCES],
    row: &mut [u32; DISTANCES],
)
    requires { ParentsDue (netlist source.now) capacities d first.now next.old end row.old base.now }
    ensures parents_written { ParentsWritten (netlist source.now) d (on_parent (netlist source.now) capacities) next.old next.new }
    ensures node_counts { NodeCounts (netlist source.now) capacities d row.new }
{
    let low = netlist::level_at(source, d);
    let mut p = usize::from(first[d]);
    while p < end {
        let after = usize::from(next[p]);
        let k = sinks::distance(source, low, p);
        let q = row[k];
        row[k] = q + 1;
        next[p] = parent_of(base[k], capacities.buffer, k, q);
        p = after;
    }
}

// The row of d's net, walked: the buffers at each distance; the largest distance is handed back.
fn count_buffers(
    source: &[u8],
    capacities: Capacities,
    chains: Chains<'_>,
    d: usize,
    row: &mut [u32; DISTANCES],
) -> usize
    requires ready { Ready (netlist source.now) capacities }
    requires chained { Chained (netlist source.now) chains.first.now chains.next.now d chains.end }
    requires d_bound { d < (netlist source.now).size }
    requires row_value { row.old ≡ replicate (suc top_level) 0 }
    ensures { CountedNet (netlist source.now) capacities d row.new result }
{
    let reach = chains.fill_row(source, d, row);
    fanout::walk(capacities.buffer, reach, true, row);
    reach.far
}

// The price of d's tree, which has so many buffers, by its row of nodes; then the row is all zero again.
fn price_row(job: Job<'_>, d: usize, size: usize, top: usize, row: &mut [u32; DISTANCES]) -> u32
    requires nodes_counted { NodesCounted (netlist job.source.now) job.capacities d row.old top }
    requires size_value { size ≡ tree_size (netlist job.source.now) job.capacities d }
    ensures value { result ≡ tree_price job.entry.prices.now.list (netlist job.entry.source.now) job.entry.capacities d }
    ensures row_after { row.new ≡ replicate (suc top_level) 0 }
{
    let price = pricing::price_tree(job, d, size, top, row);
    clear_row(top, row);
    price
}

// The tree of d: its buffers go to the area from record start on, its sinks' parents to their slots; then the row counts its nodes, by which it is priced.
fn write_tree(
    job: Job<'_>,
    end: usize,
    first: &[u16],
    next: &mut [u16],
    d: usize,
    start: usize,
    row: &mut [u32; DISTANCES],
    base: &mut [u16; DISTANCES],
    area: &mut [u8],
) -> NetBlock
    requires writable { Writable (netlist job.source.now) job.capacities d start first.now next.old end row.old base.old area.old }
    ensures wrote { Wrote (netlist job.entry.source.now) job.entry.capacities d start first.now next.new end row.new base.new area.old area.new result.after }
    ensures price_value { result.price ≡ tree_price job.entry.prices.now.list (netlist job.entry.source.now) job.entry.capacities d }
{
    let chains = Chains { first, next, end };
    let top = count_buffers(job.source, job.capacities, chains, d, row);
    let after = write_buffers(job.source, job.capacities, d, start, top, row, base, area);
    set_parents(job.source, job.capacities, end, first, next, d, base, row);
    NetBlock {
        after,
        price: price_row(job, d, after - start, top, row),
    }
}

// What a node at distance k of d's line hangs on: d, or the buffer one level nearer; the first one is record start.
fn line_parent(d: usize, start: usize, k: usize) -> u16
    requires { (d < 65536) × (start + k < 65536) }
    ensures { result ≡ line_parent d start k }
{
    if k < 2 {
        d as u16
    } else {
        (start + (k - 2)) as u16
    }
}

// n buffers in a line, from record start on, above d, which stands at level low.
fn write_line(area: &mut [u8], d: usize, start: usize, low: u16, n: usize)
    requires n_in_bounds { width * (start + n) ≤ length area.old }
    requires d_bound { (d < 65536) × (start + n < 65536) × (low + n < 65536) }
    ensures { area.new ≡ put area.old (width * start) (encoded (line_record d start low) n) }
{
    for j in 0..n {
        let k = j + 1;
        record_writer::write_record(
            area,
            start + j,
            records::buffer_of(low + k as u16, line_parent(d, start, k)),
        );
    }
}

// The parents of the sinks of d, on its line one level nearer, at distance 1 d itself: each takes the place of the next sink.
fn set_line_parents(
    source: &[u8],
    end: usize,
    first: &[u16],
    next: &mut [u16],
    d: usize,
    start: usize,
)
    requires chained { Chained (netlist source.now) first.now next.old d end }
    requires d_bound { d < (netlist source.now).size }
    requires start_le_mapped_limit { start ≤ mapped_limit }
    ensures { ParentsWritten (netlist source.now) d (on_line (netlist source.now) d start) next.old next.new }
{
    let low = netlist::level_at(source, d);
    let mut p = usize::from(first[d]);
    while p < end {
        let after = usize::from(next[p]);
        next[p] = line_parent(d, start, sinks::distance(source, low, p));
        p = after;
    }
}

// The net of d, by its sinks: nothing, a line or a tree, from record start on.
fn write_net(
    job: Job<'_>,
    end: usize,
    first: &[u16],
    next: &mut [u16],
    d: usize,
    start: usize,
    row: &mut [u32; DISTANCES],
    base: &mut [u16; DISTANCES],
    area: &mut [u8],
) -> NetBlock
    requires writable { Writable (netlist job.source.now) job.capacities d start first.now next.old end row.old base.old area.old }
    ensures wrote { Wrote (netlist job.entry.source.now) job.entry.capacities d start first.now next.new end row.new base.new area.old area.new result.after }
    ensures price_value { result.price ≡ tree_price job.entry.prices.now.list (netlist job.entry.source.now) job.entry.capacities d }
{
    let chains = Chains { first, next, end };
    let chain = chains.of_driver(job.source, d);
    match chain {
        Chain::Empty => NetBlock {
            after: start,
            price: 0,
        },
        Chain::Short(top, other) => {
            let n = top - 1;
            set_line_parents(job.source, end, first, next, d, start);
            write_line(area, d, start, netlist::level_at(job.source, d), n);
            NetBlock {
                after: start + n,
                price: pricing::price_line(job.prices, n, other),
            }
        }
        Chain::Long => write_tree(job, end, first, next, d, start, row, base, area),
    }
}

// The nets of all drivers, rising: their buffers behind the source's records, and what each sink hangs on. The row is all zero before each. Their price is handed back.
fn write_nets(
    job: Job<'_>,
    n: usize,
    end: usize,
    first: &[u16],
    next: &mut [u16],
    row: &mut [u32; DISTANCES],
    area: &mut [u8],
) -> u32
    requires ready { Ready (netlist job.source.now) job.capacities }
    requires n_value { n ≡ record_count job.source.now }
    requires parents_set { ParentsSet (netlist job.source.now) job.capacities first.now next.old 0 end }
    requires row_value { row.old ≡ replicate (suc top_level) 0 }
    requires capacities_in_bounds { width * mapped_size (netlist job.source.now) job.capacities ≤ length area.old }
    ensures parents_set_2 { ParentsSet (netlist job.entry.source.now) job.entry.capacities first.now next.new (netlist job.entry.source.now).size end }
    ensures area_after { area.new ≡ with_records (mapped (netlist job.entry.source.now) job.entry.capacities) (netlist job.entry.source.now).size (sum (tree_size (netlist job.entry.source.now) job.entry.capacities) (netlist job.entry.source.now).size) area.old }
    ensures value { result ≡ sum (tree_price job.entry.prices.now.list (netlist job.entry.source.now) job.entry.capacities) (netlist job.entry.source.now).size }
{
    let mut base = [0u16; DISTANCES];
    let mut at = n;
    let mut total: u32 = 0;
    for d in 0..n {
        let block = write_net(job, end, first, next, d, at, row, &mut base, area);
        at = block.after;
        total += block.price;
    }
    total
}

// The whole mapped netlist, into an area that it fits. The price of its buffers is handed back.
pub(crate) fn write_mapped(
    job: Job<'_>,
    n: usize,
    end: usize,
    first: &[u16],
    next: &mut [u16],
    row: &mut [u32; DISTANCES],
    area: &mut [u8],
) -> u32
    requires ready { Ready (netlist job.source.now) job.capacities }
    requires chained { Chained (netlist job.source.now) first.now next.old 0 end }
    requires n_value { n ≡ record_count job.source.now }
    requires row_value { row.old ≡ replicate (suc top_level) 0 }
    requires capacities_in_bounds { width * mapped_size (netlist job.source.now) job.capacities ≤ length area.old }
    ensures area_after { area.new ≡ onto (bytes_of (mapped (netlist job.entry.source.now) job.entry.capacities)) area.old }
    ensures value { result ≡ sum (tree_price job.entry.prices.now.list (netlist job.entry.source.now) job.entry.capacities) (netlist job.entry.source.now).size }
{
    let price = write_nets(job, n, end, first, next, row, area);
    records::write_source(job.source, next, area);
    price
}
