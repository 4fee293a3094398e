// One net: its sinks by distance and the fewest buffers of a tree.
#![tactic(auto)]

ghost use Rattle.std.specs.Prelude.{◌≡◌, suc, ◌/◌, ◌<◌, ◌≤◌};
ghost use Rattle.netlist.specs.Records.{netlist, record_count};
ghost use Rattle.netlist.specs.Kinds.{top_level};
ghost use Rattle.netlist.specs.PrivateInput.{Input};
ghost use Rattle.fanout.specs.Nets.{added};
ghost use Rattle.fanout.specs.Nets;
ghost use Rattle.fanout.specs.Answer.{net_count, count_answer};
ghost use Rattle.fanout.specs.PrivateFilling.{RowSoFar, RowAtRecord, Empty, SinkRoom, Slot, row_with, far_with};
ghost use Rattle.fanout.specs.PrivateStretches.{InStretches, NextDistance};
ghost use Rattle.fanout.specs.PrivateWalk.{node_limit, Filled, Walkable, Walked};

use facts::Check;
use netlist::{Capacities, Record, SLOTS};

pub mod stretches;

// The count of one net: the fewest buffers of a legal tree, no tree, or a refusal with its number and place.
#[derive(Clone, Copy)]
pub enum Count {
    Fewest(u32),
    NoTree,
    Refused(u32, u32),
}

// What is left at distance 1 of a net, and the buffers of its tree.
#[derive(Clone, Copy)]
pub struct TreeTotals {
    pub nodes: u32,
    pub buffers: u32,
}

// Where a row's sinks stand: the largest distance, and a bit for each stretch of distances that may have some.
#[derive(Clone, Copy)]
pub struct Reach {
    pub far: usize,
    pub stretches: u64,
}

// The driver of a net: its index and its level.
#[derive(Clone, Copy)]
struct Driver {
    index: usize,
    level: u16,
}

// What stands for no tree where a number is asked for.
pub const NO_TREE: u32 = u32::MAX;

// Distances of a row, from 0 on.
pub const DISTANCES: usize = 4096;

// Distances that are looked at one by one, which takes less time than looking for the next one with sinks.
const NEAR: usize = 16;

// One more sink at a distance.
fn add_sink(row: &mut [u32; DISTANCES], distance: usize)
    requires { SinkRoom row.old distance }
    ensures { row.new ≡ added row.old distance }
{
    row[distance] += 1;
}

// Slot j of a record: one more sink where it names the driver; an unused slot names none. Answers the largest distance so far.
fn add_slot(row: &mut [u32; DISTANCES], far: usize, driver: Driver, r: Record, j: usize) -> usize
    requires { Slot row.old driver.index driver.level r j }
    ensures { (row.new ≡ row_with driver.index driver.level r j row.old) × (result ≡ far_with driver.index driver.level r j far) }
{
    if usize::from(netlist::slot(r, j)) != driver.index {
        return far;
    }
    let distance = usize::from(r.level - driver.level);
    add_sink(row, distance);
    far.max(distance)
}

// The sinks among the slots of record k. Answers the largest distance so far.
fn add_record(
    source: &[u8],
    row: &mut [u32; DISTANCES],
    far: usize,
    driver: Driver,
    k: usize,
) -> usize
    requires { RowAtRecord (netlist source.now) driver.index driver.level k row.old far }
    ensures { RowSoFar (netlist source.now) driver.index (suc k) 0 row.new result }
{
    let r = netlist::record_at(source, k);
    let mut most = far;
    for j in 0..SLOTS {
        most = add_slot(row, most, driver, r, j);
    }
    most
}

// The row of the driver's net. Answers the largest distance.
fn fill(source: &[u8], row: &mut [u32; DISTANCES], index: usize) -> usize
    requires { Empty (netlist source.now) index row.old }
    ensures { Filled (netlist source.now) index row.new result }
{
    let driver = Driver {
        index,
        level: netlist::level_at(source, index),
    };
    let mut far = 0;
    for k in 0..netlist::record_count(source) {
        far = add_record(source, row, far, driver, k);
    }
    far
}

// x / s, by constants: the compiler has a short way for each.
pub fn divide(x: u32, s: u32) -> u32
    requires { (2 ≤ s) × (s ≤ 4) }
    ensures { result ≡ x / s }
{
    match s {
        2 => x / 2,
        3 => x / 3,
        _ => x / 4,
    }
}

// n / s, rounded up.
fn up(s: u32, n: u32) -> u32
    requires le_s { (2 ≤ s) × (s ≤ 4) }
    requires n_le_node_limit { n ≤ node_limit }
    ensures { result ≡ Nets.up s n }
{
    divide(n + (s - 1), s)
}

// The distance to go to from k: the one below; far from the driver, with a single node, and where no buffers are kept, the next one with sinks.
fn next_distance(row: &[u32; DISTANCES], stretches: u64, keep: bool, nodes: u32, k: usize) -> usize
    requires lt_k { (1 < k) × (k ≤ suc top_level) }
    requires in_stretches { InStretches row.now k stretches }
    ensures { NextDistance row.now keep nodes k result }
{
    if keep || k <= NEAR || nodes != 1 {
        return k - 1;
    }
    stretches::next_sinks(row, stretches, k)
}

// The walk down a row from the largest distance to 1: the nodes left there and the buffers. Each count of sinks becomes the count of buffers at its distance, or 0 where they are not kept. A single node has one buffer at each distance that it passes.
pub fn walk(s: u32, reach: Reach, keep: bool, row: &mut [u32; DISTANCES]) -> TreeTotals
    requires { Walkable s row.old reach }
    ensures { Walked s row.old keep row.new result }
{
    let stretches = reach.stretches;
    let mut nodes = 0;
    let mut buffers = 0;
    let mut k = reach.far + 1;
    while 1 < k {
        let to = next_distance(row, stretches, keep, nodes, k);
        let b = up(s, nodes);
        buffers += b + (k - 1 - to) as u32;
        nodes = b + row[to];
        row[to] = if keep { b } else { 0 };
        k = to;
    }
    TreeTotals { nodes, buffers }
}

// The count of a driver's net.
fn count_driver(source: &[u8], capacities: Capacities, driver: usize) -> Count
    requires input { Input source.now capacities }
    requires driver_bound { driver < record_count source.now }
    ensures { result ≡ net_count (netlist source.now) capacities driver }
{
    let mut row = [0; DISTANCES];
    let far = fill(source, &mut row, driver);
    let reach = Reach {
        far,
        stretches: u64::MAX,
    };
    let tree = walk(capacities.buffer, reach, false, &mut row);
    if netlist::may_feed(source, capacities, driver, tree.nodes) {
        Count::Fewest(tree.buffers)
    } else {
        Count::NoTree
    }
}

// The count of one net: checks 1, 26, 2 to 7, then 20, then the fewest buffers or no tree.
pub fn count_net(source: &[u8], capacities: Capacities, record: u32) -> Count
    ensures { result ≡ count_answer source.now capacities «record» }
{
    match netlist::check_input(source, capacities) {
        Ok(()) => {
            let driver = record as usize;
            if netlist::is_driver(netlist::kind_at(source, driver)) {
                count_driver(source, capacities, driver)
            } else {
                Count::Refused(Check::NoDriver.number(), record)
            }
        }
        Err(refusal) => Count::Refused(refusal.check.number(), refusal.place),
    }
}
