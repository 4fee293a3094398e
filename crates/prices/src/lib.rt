// The foundry's price list: checks 27 and 28, the prices that apply, and the price of a record by its kind and the slots it feeds.
#![tactic(auto)]

ghost use Rattle.std.specs.Prelude.{◌≡◌, ◌≤◌, length, ◌+◌};
ghost use Rattle.facts.specs.Answers.{Passed, numbered};
ghost use Rattle.facts.specs.Checks.{scan};
ghost use Rattle.prices.specs.Prices.{list_length, price_count, price_start, price_of};
ghost use Rattle.prices.specs.Checks.{bad_list_length, price_check, price_list_checks};
ghost use Rattle.prices.specs.PrivatePrices.{applied, AppliedPrices};

use facts::{Check, Refusal};
use netlist::{AND, BUFFER, MAJORITY, OR};
use std::ops::Range;

// Bytes of a list that is not empty.
pub const LIST_LENGTH: usize = 11;

// What applies where the list is empty: 6 for every gate, 2 for every buffer.
pub const PLAIN: [u32; LIST_LENGTH] = [6, 6, 6, 6, 6, 6, 2, 2, 2, 2, 2];

// Check 27: neither empty nor 11 bytes long.
fn bad_list_length(list: &[u8]) -> bool
    ensures { result ≡ bad_list_length list.now }
{
    !list.is_empty() && list.len() != LIST_LENGTH
}

// Check 28: the first price of 0.
fn check_prices(list: &[u8]) -> Result<(), Refusal>
    requires { length list.now ≤ list_length }
    ensures { numbered result ≡ scan (price_check list.now) 0 (length list.now) }
{
    match list.iter().position(|&price| price == 0) {
        Some(k) => Err(Refusal {
            check: Check::Price,
            place: k as u32,
        }),
        None => Ok(()),
    }
}

// Checks 27 and 28.
pub fn check_list(list: &[u8]) -> Result<(), Refusal>
    ensures { numbered result ≡ price_list_checks list.now }
{
    if bad_list_length(list) {
        return Err(Refusal {
            check: Check::PriceListLength,
            place: 0,
        });
    }
    check_prices(list)
}

// The eleven prices that apply.
#[derive(Clone, Copy)]
pub struct PriceTable {
    pub list: [u32; LIST_LENGTH],
    pub ghost applied: { AppliedPrices list },
}

// The prices of a list, those of the empty list where it is empty.
pub fn read_prices(list: &[u8]) -> PriceTable
    requires { price_list_checks list.now ≡ Passed }
    ensures { result.list ≡ applied list.now }
{
    let mut prices = PLAIN;
    for (k, price) in list.iter().enumerate() {
        prices[k] = u32::from(*price);
    }
    PriceTable { list: prices }
}

// The positions of a kind's prices, from no slot fed on. Gates have two each, in the order of their kinds: with an arm for each
// gate, gates of several kinds in turns take a jump that the processor seldom foresees.
fn price_range(kind: u8) -> Range<usize>
    ensures { (result.start ≡ price_start kind) × (result.end ≡ price_start kind + price_count kind) }
{
    match kind {
        AND | OR | MAJORITY => {
            let start = 2 * usize::from(kind - AND);
            start..start + 2
        }
        BUFFER => 6..LIST_LENGTH,
        _ => 0..0,
    }
}

impl PriceTable {
    // The price of a kind that feeds so many slots.
    pub fn price_of(&self, kind: u8, fed: usize) -> u32
        ensures { (result ≡ price_of self.now.list kind fed) × (result ≤ 255) }
    {
        self.list[price_range(kind)].get(fed).copied().unwrap_or(0)
    }
}
