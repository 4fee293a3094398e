// The source reader: checks 2 to 7.
ghost use Rattle.std.specs.Prelude.{◌≡◌, false, cond, ◌^◌, ◌<◌, eqb, MatchOption};
ghost use Rattle.facts.specs.Answers.{numbered};
ghost use Rattle.facts.specs.Checks.{◌and_then◌, scan};
ghost use Rattle.facts.specs.Sums.{any};
ghost use Rattle.netlist.specs.Kinds.{slots, output, invertible};
ghost use Rattle.netlist.specs.Kinds;
ghost use Rattle.netlist.specs.Records.{record_count, netlist};
ghost use Rattle.netlist.specs.Records;
ghost use Rattle.netlist.specs.Checks.{bad_slot, bad_slots, not_below, misplaced, bad_level, size_checks, structure_of, level_of, record_checks};

use crate::{
    AND, INPUT, MAJORITY, OR, OUTPUT, Record, SLOTS, SOURCE_LIMIT, TOP_LEVEL, UNUSED, WIDTH, arity,
    is_gate, record_count, record_reader, slot,
};
use facts::{Check, Refusal};

// How many values a kind's inversion byte may have: one bit for each slot that may be inverted.
fn inversions(kind: u8) -> u8
    ensures { result ≡ 2 ^ invertible kind }
{
    if is_gate(kind) {
        return 1 << arity(kind);
    }
    1
}

// Check 6 of slot j of record k.
fn bad_slot(bytes: &[u8], k: usize, r: Record, used: usize, j: usize) -> bool
    requires k_bound { k < record_count bytes.now }
    requires used_value { used ≡ Kinds.arity r.kind }
    ensures { result ≡ bad_slot (netlist bytes.now) k r j }
{
    let target = slot(r, j);
    if j < used {
        if k <= target as usize {
            return true;
        }
        return record_reader::read_at(bytes, target as usize).kind == OUTPUT;
    }
    target != UNUSED
}

// Check 6 of record k: some slot is bad.
fn bad_slots(bytes: &[u8], k: usize, r: Record, used: usize) -> bool
    requires k_bound { k < record_count bytes.now }
    requires used_value { used ≡ Kinds.arity r.kind }
    ensures { result ≡ bad_slots (netlist bytes.now) k r }
{
    for j in 0..SLOTS {
        if bad_slot(bytes, k, r, used, j) {
            return true;
        }
    }
    false
}

// Check 7 of one slot: a fanin that does not stand below the record.
fn not_below(bytes: &[u8], k: usize, r: Record, used: usize, j: usize) -> bool
    requires k_bound { k < record_count bytes.now }
    requires used_value { used ≡ Kinds.arity r.kind }
    requires r_value { bad_slots (netlist bytes.now) k r ≡ false }
    ensures { result ≡ not_below (netlist bytes.now) r j }
{
    if j < used {
        r.level <= record_reader::read_at(bytes, slot(r, j) as usize).level
    } else {
        false
    }
}

// Check 7 of the slots: some fanin does not stand below the record.
fn any_not_below(bytes: &[u8], k: usize, r: Record, used: usize) -> bool
    requires k_bound { k < record_count bytes.now }
    requires used_value { used ≡ Kinds.arity r.kind }
    requires r_value { bad_slots (netlist bytes.now) k r ≡ false }
    ensures { result ≡ any (not_below (netlist bytes.now) r) slots }
{
    for j in 0..SLOTS {
        if not_below(bytes, k, r, used, j) {
            return true;
        }
    }
    false
}

// Check 7 of the record's own level.
fn is_misplaced(deep: u16, r: Record) -> bool
    ensures { result ≡ misplaced deep r }
{
    if TOP_LEVEL < r.level {
        return true;
    }
    if r.kind == INPUT {
        return r.level != 0;
    }
    if r.kind == OUTPUT {
        return r.level != deep;
    }
    false
}

// Checks 4 to 6 of record k.
pub fn check_structure(bytes: &[u8], k: u32, r: Record, used: usize) -> Result<(), Refusal>
    requires k_bound { k < record_count bytes.now }
    requires used_value { used ≡ Kinds.arity r.kind }
    ensures { numbered result ≡ structure_of (netlist bytes.now) k r }
{
    if OUTPUT < r.kind {
        return Err(Refusal {
            check: Check::SourceKind,
            place: k,
        });
    }
    if inversions(r.kind) <= r.inversion {
        return Err(Refusal {
            check: Check::Inversion,
            place: k,
        });
    }
    if bad_slots(bytes, k as usize, r, used) {
        return Err(Refusal {
            check: Check::Slots,
            place: k,
        });
    }
    Ok(())
}

// Check 7: the record's own level or a fanin's is wrong, with the level of the first output in deep if the record is an output.
fn bad_level(bytes: &[u8], deep: u16, k: usize, r: Record, used: usize) -> bool
    requires k_bound { k < record_count bytes.now }
    requires used_value { used ≡ Kinds.arity r.kind }
    requires r_value { bad_slots (netlist bytes.now) k r ≡ false }
    requires r_value_2 { misplaced deep r ≡ misplaced (Records.depth (netlist bytes.now)) r }
    ensures { result ≡ bad_level (netlist bytes.now) r }
{
    if is_misplaced(deep, r) {
        return true;
    }
    any_not_below(bytes, k, r, used)
}

// Check 7 of record k.
fn check_level(bytes: &[u8], deep: u16, k: u32, r: Record, used: usize) -> Result<(), Refusal>
    requires k_bound { k < record_count bytes.now }
    requires used_value { used ≡ Kinds.arity r.kind }
    requires r_value { bad_slots (netlist bytes.now) k r ≡ false }
    requires r_value_2 { misplaced deep r ≡ misplaced (Records.depth (netlist bytes.now)) r }
    ensures { numbered result ≡ level_of (netlist bytes.now) k r }
{
    if bad_level(bytes, deep, k as usize, r, used) {
        return Err(Refusal {
            check: Check::Level,
            place: k,
        });
    }
    Ok(())
}

// Checks 4 to 7 of record k, whose kind uses so many slots.
fn check_used(bytes: &[u8], deep: u16, k: u32, r: Record, used: usize) -> Result<(), Refusal>
    requires k_bound { k < record_count bytes.now }
    requires used_value { used ≡ Kinds.arity r.kind }
    requires r_value { misplaced deep r ≡ misplaced (Records.depth (netlist bytes.now)) r }
    ensures { numbered result ≡ (structure_of (netlist bytes.now) k r and_then level_of (netlist bytes.now) k r) }
{
    check_structure(bytes, k, r, used)?;
    check_level(bytes, deep, k, r, used)
}

// Checks 4 to 7 of record k: a path for each kind. As a closure handed to `by_kind` they are called, and not laid out in each path.
fn check_record(bytes: &[u8], deep: u16, k: u32, r: Record) -> Result<(), Refusal>
    requires k_bound { k < record_count bytes.now }
    requires r_value { misplaced deep r ≡ misplaced (Records.depth (netlist bytes.now)) r }
    ensures { numbered result ≡ (structure_of (netlist bytes.now) k r and_then level_of (netlist bytes.now) k r) }
{
    match r.kind {
        INPUT => check_used(bytes, deep, k, r, arity(INPUT)),
        AND => check_used(bytes, deep, k, r, arity(AND)),
        OR => check_used(bytes, deep, k, r, arity(OR)),
        MAJORITY => check_used(bytes, deep, k, r, arity(MAJORITY)),
        OUTPUT => check_used(bytes, deep, k, r, arity(OUTPUT)),
        _ => check_used(bytes, deep, k, r, arity(r.kind)),
    }
}

// The level of the first output so far, with record r.
fn with_record(deep: Option<u16>, r: Record) -> Option<u16>
    ensures { MatchOption deep (result ≡ cond (eqb r.kind output) (Some r.level) None) (λ level. result ≡ Some level) }
{
    if r.kind != OUTPUT {
        return deep;
    }
    deep.or(Some(r.level))
}

// Checks 4 to 7 of every record, rising; each is read once.
pub(crate) fn check_records(bytes: &[u8], n: u32) -> Result<(), Refusal>
    requires { n ≡ record_count bytes.now }
    ensures { numbered result ≡ scan (record_checks (netlist bytes.now)) 0 n }
{
    let mut deep = None;
    for k in 0..n {
        let r = record_reader::read_at(bytes, k as usize);
        deep = with_record(deep, r);
        check_record(bytes, deep.unwrap_or(0), k, r)?;
    }
    Ok(())
}

// Checks 2 and 3.
pub fn check_size(bytes: &[u8]) -> Result<(), Refusal>
    ensures { numbered result ≡ size_checks bytes.now }
{
    if bytes.len() % WIDTH != 0 {
        return Err(Refusal {
            check: Check::SourceLength,
            place: 0,
        });
    }
    if SOURCE_LIMIT < record_count(bytes) {
        return Err(Refusal {
            check: Check::SourceSize,
            place: 0,
        });
    }
    Ok(())
}
