// The mapper: checks 9 and 10 and the mapped netlist, written record by record and priced.
#![tactic(auto)]

ghost use Rattle.std.specs.Prelude.{◌≡◌, suc, ◌*◌, ◌≤◌, length, replicate};
ghost use Rattle.facts.specs.Answers.{Passed, numbered, told};
ghost use Rattle.netlist.specs.Kinds.{slots, top_level, source_limit, mapped_limit};
ghost use Rattle.netlist.specs.Records.{netlist, record_count};
ghost use Rattle.facts.specs.Checks.{◌and_then◌};
ghost use Rattle.netlist.specs.Checks.{capacity_checks, source_checks, input_checks};
ghost use Rattle.prices.specs.Checks.{price_list_checks};
ghost use Rattle.mapper.specs.Mapped.{mapped};
ghost use Rattle.mapper.specs.Answer.{accepted, refusal, figures, map_answer, map_area};
ghost use Rattle.mapper.specs.View.{block_view};
ghost use Rattle.nets.specs.PrivateChains.{AllUnused};
ghost use Rattle.mapper.specs.PrivateWriting.{Counted};

use facts::{Check, Refusal};
use fanout::DISTANCES;
use netlist::{Capacities, MAPPED_LIMIT, SLOTS, UNUSED, WIDTH};
use nets::sinks::{Chains, RECORDS, SINKS};
use nets::{sinks, trees};
use prices::PriceTable;

mod block;
mod pricing;
mod records;
mod writing;

// Up to how many records of a source short arrays serve, and the slots of so many.
const SMALL: usize = 1024;

const SMALL_SINKS: usize = SLOTS * SMALL;

// What an accepted source's mapping counts (specification 4.1): M, buffers, D, JJs and share.
#[derive(Clone, Copy, Debug, PartialEq, Eq, Hash)]
pub struct MapTotals {
    pub size: u32,
    pub buffers: u32,
    pub depth: u32,
    pub junctions: u32,
    pub share: u32,
}

// What a mapping is made of: a source, the capacities, and the prices that apply.
#[derive(Clone, Copy)]
struct Job<'a> {
    source: &'a [u8],
    capacities: Capacities,
    prices: &'a PriceTable,
}

// The first record of a block, and the first behind it.
#[derive(Clone, Copy)]
struct Ends {
    from: usize,
    to: usize,
}

// The totals of an accepted source with its buffers, their JJs and all JJs.
fn accept(source: &[u8], n: usize, buffers: u32, part: u32, whole: u32) -> MapTotals
    requires n_value { n ≡ record_count source.now }
    requires n_le_source_limit { n ≤ source_limit }
    requires buffers_le_mapped_limit { buffers ≤ mapped_limit }
    requires part_bound { part ≤ 255 * mapped_limit }
    ensures { accepted result ≡ figures (netlist source.now) buffers part whole }
{
    MapTotals {
        size: n as u32 + buffers,
        buffers,
        depth: netlist::depth(source) as u32,
        junctions: whole,
        share: facts::round(100 * part, whole),
    }
}

// Checks 9 and 10 of a source whose trees are counted, and the mapping.
fn map_trees(
    job: Job<'_>,
    n: usize,
    end: usize,
    first: &[u16],
    next: &mut [u16],
    total: usize,
    row: &mut [u32; DISTANCES],
    area: &mut [u8],
) -> Result<MapTotals, Refusal>
    requires counted { Counted job.source.now job.capacities n first.now next.old end total }
    requires row_value { row.old ≡ replicate (suc top_level) 0 }
    ensures value { told result accepted refusal ≡ map_answer job.entry.source.now job.entry.capacities job.entry.prices.now.list area.old }
    ensures area_after { area.new ≡ map_area job.entry.source.now job.entry.capacities job.entry.prices.now.list area.old }
{
    let size = n + total;
    if MAPPED_LIMIT < size {
        return Err(Refusal {
            check: Check::MappedSize,
            place: 0,
        });
    }
    if area.len() < WIDTH * size {
        return Err(Refusal {
            check: Check::MappedRoom,
            place: 0,
        });
    }
    let chains = Chains { first, next, end };
    let gates_price = pricing::price_gates(job, n, chains);
    let buffers_price = writing::write_mapped(job, n, end, first, next, row, area);
    Ok(accept(
        job.source,
        n,
        total as u32,
        buffers_price,
        gates_price + buffers_price,
    ))
}

// Checks 8 to 10 of a source that passes 1, 26 and 2 to 7, and the mapping, in arrays long enough for its chains.
fn map_with(
    job: Job<'_>,
    n: usize,
    first: &mut [u16],
    next: &mut [u16],
    totals: &mut [u32],
    area: &mut [u8],
) -> Result<MapTotals, Refusal>
    requires capacities_value { input_checks job.source.now job.capacities ≡ Passed }
    requires n_value { n ≡ record_count job.source.now }
    requires n_in_bounds { (n ≤ length first.old) × (slots * n ≤ length next.old) }
    requires n_in_bounds_2 { n ≤ length totals.old }
    requires all_unused { AllUnused next.old }
    ensures value { told result accepted refusal ≡ map_answer job.entry.source.now job.entry.capacities job.entry.prices.now.list area.old }
    ensures area_after { area.new ≡ map_area job.entry.source.now job.entry.capacities job.entry.prices.now.list area.old }
{
    let end = SLOTS * n;
    let mut row = [0u32; DISTANCES];
    sinks::empty_chains(n, end as u16, first);
    let total = trees::size_trees(
        job.source,
        job.capacities,
        n,
        end,
        first,
        next,
        &mut row,
        totals,
    )?;
    map_trees(job, n, end, first, next, total, &mut row, area)
}

// The same, with arrays for N records and S slots.
fn map_in<const N: usize, const S: usize>(
    job: Job<'_>,
    n: usize,
    area: &mut [u8],
) -> Result<MapTotals, Refusal>
    requires capacities_value { input_checks job.source.now job.capacities ≡ Passed }
    requires n_value { n ≡ record_count job.source.now }
    requires n_in_bounds { (n ≤ N) × (slots * n ≤ S) }
    requires arrays_fit { (N ≤ source_limit) × (S ≤ slots * source_limit) }
    ensures value { told result accepted refusal ≡ map_answer job.entry.source.now job.entry.capacities job.entry.prices.now.list area.old }
    ensures area_after { area.new ≡ map_area job.entry.source.now job.entry.capacities job.entry.prices.now.list area.old }
{
    let mut first = [0u16; N];
    let mut next = [UNUSED; S];
    let mut totals = [0u32; N];
    map_with(job, n, &mut first, &mut next, &mut totals, area)
}

// The same. A source of few records takes short arrays, which are sooner cleared.
fn map_source(job: Job<'_>, area: &mut [u8]) -> Result<MapTotals, Refusal>
    requires capacities_value { input_checks job.source.now job.capacities ≡ Passed }
    ensures value { told result accepted refusal ≡ map_answer job.entry.source.now job.entry.capacities job.entry.prices.now.list area.old }
    ensures area_after { area.new ≡ map_area job.entry.source.now job.entry.capacities job.entry.prices.now.list area.old }
{
    let n = netlist::record_count(job.source);
    if n <= SMALL {
        return map_in::<SMALL, SMALL_SINKS>(job, n, area);
    }
    map_in::<RECORDS, SINKS>(job, n, area)
}

// The mapping of a source that passes 1, 26 and 2 to 7, with the prices of a list that passes 27 and 28.
fn map_listed(
    source: &[u8],
    capacities: Capacities,
    list: &[u8],
    area: &mut [u8],
) -> Result<MapTotals, Refusal>
    requires capacities_value { input_checks source.now capacities ≡ Passed }
    requires list_value { price_list_checks list.now ≡ Passed }
    ensures value { told result accepted refusal ≡ map_answer source.now capacities list.now area.old }
    ensures area_after { area.new ≡ map_area source.now capacities list.now area.old }
{
    let prices = prices::read_prices(list);
    let job = Job {
        source,
        capacities,
        prices: &prices,
    };
    map_source(job, area)
}

// Checks 27, 28 and 2 to 7, in that order.
fn check_list_and_source(source: &[u8], list: &[u8]) -> Result<(), Refusal>
    ensures { numbered result ≡ (price_list_checks list.now and_then source_checks source.now) }
{
    prices::check_list(list)?;
    netlist::check_source(source)
}

// Checks 1, 26, 27, 28 and 2 to 7, in that order.
fn check_call(source: &[u8], capacities: Capacities, list: &[u8]) -> Result<(), Refusal>
    ensures { numbered result ≡ (capacity_checks capacities and_then price_list_checks list.now and_then source_checks source.now) }
{
    netlist::check_capacities(capacities)?;
    check_list_and_source(source, list)
}

// The mapper: the mapped netlist of a source into the area, and its totals; or a refusal that leaves the area as it was.
pub fn map_netlist(
    source: &[u8],
    capacities: Capacities,
    list: &[u8],
    area: &mut [u8],
) -> Result<MapTotals, Refusal>
    ensures value { told result accepted refusal ≡ map_answer source.now capacities list.now area.old }
    ensures area_after { area.new ≡ map_area source.now capacities list.now area.old }
{
    check_call(source, capacities, list)?;
    map_listed(source, capacities, list, area)
}

// The block view: the buffers of one driver, as a part of the lent mapped netlist.
pub fn block_of<'a>(
    source: &[u8],
    capacities: Capacities,
    mapped: &'a [u8],
    driver: usize,
) -> &'a [u8]
    ensures { result.now ≡ block_view source.now capacities mapped.now driver }
{
    let ends = block::block_ends(source, capacities, driver);
    let from = ends.from;
    let to = ends.to;
    if netlist::record_count(mapped) < to {
        return &mapped[0..0];
    }
    &mapped[WIDTH * from..WIDTH * to]
}
