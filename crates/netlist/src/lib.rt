// Records of ten bytes, capacities (checks 1 and 26), the source reader (2 to 7) and the record view.
#![tactic(auto)]

ghost use Rattle.std.specs.Prelude.{◌≡◌, leb};
ghost use Rattle.facts.specs.Answers.{numbered};
ghost use Rattle.netlist.specs.Kinds.{among, is_gate, is_driver};
ghost use Rattle.netlist.specs.Kinds;
ghost use Rattle.netlist.specs.Records.{record_at, record_count, netlist};
ghost use Rattle.netlist.specs.Records;
ghost use Rattle.netlist.specs.Counts.{count_kind, count_of, gates};
ghost use Rattle.netlist.specs.Capacities.{capacity_of, Allowed};
ghost use Rattle.netlist.specs.Checks.{outside, capacity_check, input_capacity_check, capacity_checks, source_checks, input_checks};
ghost use Rattle.netlist.specs.View.{view_of};

use facts::{Check, Refusal};

pub mod capacity_reader;
pub mod record_reader;
pub mod record_writer;
pub mod source_reader;

pub const WIDTH: usize = 10;

pub const SLOTS: usize = 3;

// Where a record's two bytes of level begin.
pub const LEVEL_PLACE: usize = 2;

pub const UNUSED: u16 = 65535;

pub const TOP_LEVEL: u16 = 4095;

pub const SOURCE_LIMIT: usize = 4096;

pub const MAPPED_LIMIT: usize = 60000;

pub const LEAST_CAPACITY: u32 = 2;

pub const MOST_CAPACITY: u32 = 4;

pub const LEAST_INPUT_CAPACITY: u32 = 1;

pub const MOST_INPUT_CAPACITY: u32 = 4095;

// Slots that a gate may feed.
pub const GATE_CAPACITY: u32 = 1;

pub const INPUT: u8 = 0;

pub const AND: u8 = 1;

pub const OR: u8 = 2;

pub const MAJORITY: u8 = 3;

pub const OUTPUT: u8 = 4;

pub const BUFFER: u8 = 5;

pub const ABSENT: u8 = 255;

// One record (specification 1.1).
#[derive(Clone, Copy, Debug, PartialEq, Eq, Hash)]
pub struct Record {
    pub kind: u8,
    pub inversion: u8,
    pub level: u16,
    pub slots: [u16; SLOTS],
}

// What a netlist is made for (specification 2.2): the most slots that a buffer may feed, and that an input may.
#[derive(Clone, Copy, Debug, PartialEq, Eq, Hash)]
pub struct Capacities {
    pub buffer: u32,
    pub input: u32,
}

// The most slots that a record of a kind may feed.
pub fn capacity_of(capacities: Capacities, kind: u8) -> u32
    ensures { result ≡ capacity_of capacities kind }
{
    match kind {
        BUFFER => capacities.buffer,
        INPUT => capacities.input,
        _ => GATE_CAPACITY,
    }
}

// How many slots a kind uses: slots 0 to arity - 1.
pub fn arity(kind: u8) -> usize
    ensures { result ≡ Kinds.arity kind }
{
    match kind {
        AND | OR => 2,
        MAJORITY => 3,
        OUTPUT | BUFFER => 1,
        _ => 0,
    }
}

// What f gives for the number of slots that a kind uses: a path for each number, so that the compiler knows it.
pub fn by_arity<R, F: FnMut(usize) -> R>(kind: u8, f: &mut F) -> R
    requires { F.pre f.old (Kinds.arity kind) }
    ensures { F.step f.old (Kinds.arity kind) result f.new }
{
    match arity(kind) {
        0 => f(0),
        1 => f(1),
        2 => f(2),
        _ => f(SLOTS),
    }
}

// The same by a path for each kind.
pub fn by_kind<R, F: FnMut(usize) -> R>(kind: u8, f: &mut F) -> R
    requires { F.pre f.old (Kinds.arity kind) }
    ensures { F.step f.old (Kinds.arity kind) result f.new }
{
    match kind {
        INPUT => f(arity(INPUT)),
        AND => f(arity(AND)),
        OR => f(arity(OR)),
        MAJORITY => f(arity(MAJORITY)),
        OUTPUT => f(arity(OUTPUT)),
        _ => f(arity(kind)),
    }
}

// A kind from the first to the last of a range.
fn is_among(kind: u8, first: u8, last: u8) -> bool
    ensures { result ≡ among first last kind }
{
    first <= kind && kind <= last
}

// AND, OR and MAJ.
pub fn is_gate(kind: u8) -> bool
    ensures { result ≡ is_gate kind }
{
    is_among(kind, AND, MAJORITY)
}

// Inputs and gates drive nets.
pub fn is_driver(kind: u8) -> bool
    ensures { result ≡ is_driver kind }
{
    kind <= MAJORITY
}

// What stands past the end.
pub fn blank() -> Record
    ensures { result ≡ Records.blank }
{
    Record {
        kind: ABSENT,
        inversion: 0,
        level: 0,
        slots: [UNUSED; SLOTS],
    }
}

// How many whole records the bytes hold.
pub fn record_count(bytes: &[u8]) -> usize
    ensures { result ≡ record_count bytes.now }
{
    bytes.len() / WIDTH
}

// Record k, blank from the end on.
pub fn record_at(bytes: &[u8], k: usize) -> Record
    ensures { result ≡ record_at bytes.now k }
{
    if k < record_count(bytes) {
        record_reader::read_at(bytes, k)
    } else {
        blank()
    }
}

// Slot j of a record.
pub fn slot(r: Record, j: usize) -> u16
    ensures { result ≡ Records.slot r j }
{
    r.slots.get(j).copied().unwrap_or(UNUSED)
}

// The kind of record k.
pub fn kind_at(bytes: &[u8], k: usize) -> u8
    ensures { result ≡ (record_at bytes.now k).kind }
{
    record_at(bytes, k).kind
}

// The level of record k.
pub fn level_at(bytes: &[u8], k: usize) -> u16
    ensures { result ≡ (record_at bytes.now k).level }
{
    record_at(bytes, k).level
}

// Slot j of record k.
pub fn slot_at(bytes: &[u8], k: usize, j: usize) -> u16
    ensures { result ≡ Records.slot (record_at bytes.now k) j }
{
    slot(record_at(bytes, k), j)
}

// How many records are of the kinds from the first to the last of a range.
fn count_kinds(bytes: &[u8], first: u8, last: u8) -> usize
    ensures { result ≡ count_kind (netlist bytes.now) (among first last) }
{
    let mut total: usize = 0;
    for k in 0..record_count(bytes) {
        total += usize::from(is_among(kind_at(bytes, k), first, last));
    }
    total
}

// How many records are of one kind.
pub fn count_kind(bytes: &[u8], kind: u8) -> usize
    ensures { result ≡ count_of (netlist bytes.now) kind }
{
    count_kinds(bytes, kind, kind)
}

// How many records are gates.
pub fn count_gates(bytes: &[u8]) -> usize
    ensures { result ≡ gates (netlist bytes.now) }
{
    count_kinds(bytes, AND, MAJORITY)
}

// Whether record k may feed so many slots: one in any case, more as its kind says.
pub fn may_feed(bytes: &[u8], capacities: Capacities, k: usize, slots: u32) -> bool
    requires { Allowed capacities }
    ensures { result ≡ leb slots (capacity_of capacities (record_at bytes.now k).kind) }
{
    slots <= GATE_CAPACITY || slots <= capacity_of(capacities, kind_at(bytes, k))
}

// D: the level of the first output, 0 without outputs.
pub fn depth(bytes: &[u8]) -> u16
    ensures { result ≡ Records.depth (netlist bytes.now) }
{
    for k in 0..record_count(bytes) {
        let r = record_at(bytes, k);
        if r.kind == OUTPUT {
            return r.level;
        }
    }
    0
}

// The source reader: checks 2 to 7.
pub fn check_source(bytes: &[u8]) -> Result<(), Refusal>
    ensures { numbered result ≡ source_checks bytes.now }
{
    source_reader::check_size(bytes)?;
    source_reader::check_records(bytes, record_count(bytes) as u32)
}

// Whether a number is below the least or above the most.
fn is_outside(number: u32, least: u32, most: u32) -> bool
    ensures { result ≡ outside least most number }
{
    !(least..=most).contains(&number)
}

// Check 1 of a buffer's capacity.
pub fn check_capacity(capacity: u32) -> Result<(), Refusal>
    ensures { numbered result ≡ capacity_check capacity }
{
    if is_outside(capacity, LEAST_CAPACITY, MOST_CAPACITY) {
        return Err(Refusal {
            check: Check::BufferCapacity,
            place: 0,
        });
    }
    Ok(())
}

// Check 26 of an input's capacity.
fn check_input_capacity(capacity: u32) -> Result<(), Refusal>
    ensures { numbered result ≡ input_capacity_check capacity }
{
    if is_outside(capacity, LEAST_INPUT_CAPACITY, MOST_INPUT_CAPACITY) {
        return Err(Refusal {
            check: Check::InputCapacity,
            place: 0,
        });
    }
    Ok(())
}

// Checks 1 and 26.
pub fn check_capacities(capacities: Capacities) -> Result<(), Refusal>
    ensures { numbered result ≡ capacity_checks capacities }
{
    check_capacity(capacities.buffer)?;
    check_input_capacity(capacities.input)
}

// What every call with capacities and a source checks first: 1, 26 and 2 to 7.
pub fn check_input(bytes: &[u8], capacities: Capacities) -> Result<(), Refusal>
    ensures { numbered result ≡ input_checks bytes.now capacities }
{
    check_capacities(capacities)?;
    check_source(bytes)
}

// The record view: record k comes from the source below N and from the mapped netlist above; empty from M on.
pub fn record_view<'a>(source: &'a [u8], mapped: &'a [u8], k: usize) -> &'a [u8]
    ensures { result.now ≡ view_of source.now mapped.now k }
{
    if record_count(mapped) <= k {
        return &source[0..0];
    }
    if k < record_count(source) {
        record_reader::record_part(source, k)
    } else {
        record_reader::record_part(mapped, k)
    }
}
