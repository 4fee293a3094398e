// Checks 12 to 15: each record of a mapped netlist at its place; the used slots are counted for 17.
ghost use Rattle.std.specs.Prelude.{◌≡◌, ◌≢◌, true, false, ◌+◌, ◌<◌, ◌≤◌, length};
ghost use Rattle.facts.specs.Answers.{Passed, numbered};
ghost use Rattle.facts.specs.Checks.{scan};
ghost use Rattle.facts.specs.Sums.{any};
ghost use Rattle.netlist.specs.Kinds;
ghost use Rattle.netlist.specs.Kinds.{slots};
ghost use Rattle.netlist.specs.Records;
ghost use Rattle.netlist.specs.Records.{netlist, record_count};
ghost use Rattle.netlist.specs.Source.{IsSource};
ghost use Rattle.verifier.specs.PrivateWalking.{Sized, Buffering, Known};
ghost use Rattle.verifier.specs.PrivateFeeding.{bad_fanin, buffer_checks, Fed, Tallied, TalliedIf, TalliedIfPassed};
ghost use Rattle.verifier.specs.Checks;
ghost use Rattle.verifier.specs.Checks.{bad_empty, no_buffer, bad_name, slot_checks, place_checks};

use crate::{feeds, traces};
use facts::{Check, Refusal};
use netlist::{Record, arity, by_arity, record_count, record_reader, slot};

// Checks 12 and 13 of the slots that the kind does not use: one names something.
fn any_bad_empty(kind: u8, r: Record) -> bool
    ensures { result ≡ any (bad_empty kind Records.blank r) slots }
{
    for j in 0..netlist::SLOTS {
        if arity(kind) <= j && slot(r, j) != netlist::UNUSED {
            return true;
        }
    }
    false
}

// Check 12: r differs outside the used slots from a source record a, whose unused slots name nothing.
fn differs(a: Record, r: Record) -> bool
    requires { any (bad_empty a.kind Records.blank a) slots ≡ false }
    ensures { result ≡ Checks.differs a r }
{
    r.kind != a.kind || r.inversion != a.inversion || r.level != a.level || any_bad_empty(a.kind, r)
}

// Check 13: r is no buffer's record.
fn no_buffer(r: Record) -> bool
    ensures { result ≡ no_buffer r }
{
    r.kind != netlist::BUFFER
        || r.inversion != 0
        || netlist::TOP_LEVEL < r.level
        || any_bad_empty(netlist::BUFFER, r)
}

// Check 14 of one used slot: it names no record or an output.
fn bad_name(mapped: &[u8], r: Record, j: usize) -> bool
    ensures { result ≡ bad_name (netlist mapped.now) r j }
{
    let x = usize::from(slot(r, j));
    record_count(mapped) <= x || netlist::kind_at(mapped, x) == netlist::OUTPUT
}

// Checks 14 and 15 of one used slot: it names no fanin, or one that is not one level lower.
pub fn bad_fanin(mapped: &[u8], r: Record, j: usize) -> bool
    ensures { result ≡ bad_fanin (netlist mapped.now) r j }
{
    if bad_name(mapped, r, j) {
        return true;
    }
    let below = netlist::level_at(mapped, usize::from(slot(r, j)));
    u32::from(r.level) != u32::from(below) + 1
}

// Whether the first n slots pass 14 and 15; each that does is counted.
fn feed_slots(mapped: &[u8], r: Record, n: usize, counts: &mut [u16]) -> bool
    requires { record_count mapped.now ≤ length counts.old }
    ensures { Fed (netlist mapped.now) r n result counts.old counts.new }
{
    for j in 0..n {
        if bad_fanin(mapped, r, j) {
            return false;
        }
        feeds::feed(counts, usize::from(slot(r, j)));
    }
    true
}

// The same of all used slots.
fn feed_used(mapped: &[u8], r: Record, counts: &mut [u16]) -> bool
    requires { record_count mapped.now ≤ length counts.old }
    ensures { Fed (netlist mapped.now) r (Kinds.arity r.kind) result counts.old counts.new }
{
    let mut feed = |n: usize| feed_slots(mapped, r, n, counts);
    by_arity(r.kind, &mut feed)
}

// The refusal of record k, of which some used slot does not pass: 14 comes first.
fn refuse_slots(mapped: &[u8], k: u32, r: Record) -> Result<(), Refusal>
    requires { any (bad_fanin (netlist mapped.now) r) (Kinds.arity r.kind) ≡ true }
    ensures { numbered result ≡ slot_checks (netlist mapped.now) k r }
{
    let used = arity(r.kind);
    for j in 0..used {
        if bad_name(mapped, r, j) {
            return Err(Refusal {
                check: Check::Fanin,
                place: k,
            });
        }
    }
    Err(Refusal {
        check: Check::FaninLevel,
        place: k,
    })
}

// Whether record k below the source's size passes 12, 14 and 15; if so, its used slots are counted.
fn record_passes(source: &[u8], mapped: &[u8], k: u32, counts: &mut [u16]) -> bool
    requires source { IsSource (netlist source.now) }
    requires whole { record_count source.now ≤ record_count mapped.now }
    requires k_bound { k < record_count source.now }
    requires tallied { Tallied (netlist mapped.now) k counts.old }
    ensures { TalliedIf result (place_checks (netlist source.now) (netlist mapped.now) k) (netlist mapped.now) (k + 1) counts.new }
{
    let r = record_reader::read_at(mapped, k as usize);
    if differs(record_reader::read_at(source, k as usize), r) {
        return false;
    }
    feed_used(mapped, r, counts)
}

// The refusal of record k below the source's size, which does not pass: 12 comes first. Worked out behind the loop, which then
// holds no refusal in its registers.
#[cold]
#[inline(never)]
fn refuse_record(source: &[u8], mapped: &[u8], k: u32) -> Result<(), Refusal>
    requires source { IsSource (netlist source.now) }
    requires whole { record_count source.now ≤ record_count mapped.now }
    requires k_bound { k < record_count source.now }
    requires fails { place_checks (netlist source.now) (netlist mapped.now) k ≢ Passed }
    ensures { numbered result ≡ place_checks (netlist source.now) (netlist mapped.now) k }
{
    let r = record_reader::read_at(mapped, k as usize);
    if differs(record_reader::read_at(source, k as usize), r) {
        return Err(Refusal {
            check: Check::SourceKept,
            place: k,
        });
    }
    refuse_slots(mapped, k, r)
}

// Checks 12, 14 and 15 of every record below the source's size, rising. Not inline: beside the other checks its loop would not
// keep its values in registers.
#[inline(never)]
pub(crate) fn check_records(
    source: &[u8],
    mapped: &[u8],
    n: u32,
    counts: &mut [u16],
) -> Result<(), Refusal>
    requires n_value { n ≡ record_count source.now }
    requires source { IsSource (netlist source.now) }
    requires whole { record_count source.now ≤ record_count mapped.now }
    requires tallied { Tallied (netlist mapped.now) 0 counts.old }
    ensures { TalliedIfPassed (numbered result) (scan (place_checks (netlist source.now) (netlist mapped.now)) 0 (record_count source.now)) (netlist mapped.now) (record_count source.now) counts.new }
{
    for k in 0..n {
        if !record_passes(source, mapped, k, counts) {
            return refuse_record(source, mapped, k);
        }
    }
    Ok(())
}

// Whether record k from the source's size on passes 13 to 15; if so, its slot is counted, and its driver kept if its fanin's is known.
fn buffer_passes(mapped: &[u8], n: u32, k: u32, counts: &mut [u16], drivers: &mut [u16]) -> bool
    requires buffering { Buffering n (netlist mapped.now) k }
    requires tallied { Tallied (netlist mapped.now) k counts.old }
    requires known { Known (netlist mapped.now) drivers.old }
    ensures tallied_if { TalliedIf result (buffer_checks (netlist mapped.now) k) (netlist mapped.now) (k + 1) counts.new }
    ensures known_after { Known (netlist mapped.now) drivers.new }
{
    let r = record_reader::read_at(mapped, k as usize);
    if no_buffer(r) {
        return false;
    }
    if feed_slots(mapped, r, arity(netlist::BUFFER), counts) {
        let d = traces::known(n, drivers, slot(r, 0));
        drivers[k as usize] = d;
        return true;
    }
    false
}

// The refusal of record k from the source's size on, which does not pass: 13 comes first.
#[cold]
#[inline(never)]
fn refuse_buffer(mapped: &[u8], k: u32) -> Result<(), Refusal>
    requires k_bound { k < record_count mapped.now }
    requires fails { buffer_checks (netlist mapped.now) k ≢ Passed }
    ensures { numbered result ≡ buffer_checks (netlist mapped.now) k }
{
    let r = record_reader::read_at(mapped, k as usize);
    if no_buffer(r) {
        return Err(Refusal {
            check: Check::BufferRecord,
            place: k,
        });
    }
    refuse_slots(mapped, k, r)
}

// Checks 13 to 15 of every record from the source's size on, rising, once those below passed. Not inline either.
#[inline(never)]
pub(crate) fn check_buffers(
    source: &[u8],
    mapped: &[u8],
    n: u32,
    m: u32,
    counts: &mut [u16],
    drivers: &mut [u16],
) -> Result<(), Refusal>
    requires sized { Sized (netlist source.now) (netlist mapped.now) n m }
    requires below_passed { scan (place_checks (netlist source.now) (netlist mapped.now)) 0 (record_count source.now) ≡ Passed }
    requires tallied { Tallied (netlist mapped.now) (record_count source.now) counts.old }
    requires known { Known (netlist mapped.now) drivers.old }
    ensures tallied_if_passed { TalliedIfPassed (numbered result) (scan (place_checks (netlist source.now) (netlist mapped.now)) 0 (record_count mapped.now)) (netlist mapped.now) (record_count mapped.now) counts.new }
    ensures known_after { Known (netlist mapped.now) drivers.new }
{
    for k in n..m {
        if !buffer_passes(mapped, n, k, counts, drivers) {
            return refuse_buffer(mapped, k);
        }
    }
    Ok(())
}
