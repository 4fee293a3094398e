// The verifier (specification 4.3): whether a mapped netlist is legal for a source and capacities (checks 11 to 17).
#![tactic(auto)]

ghost use Rattle.std.specs.Prelude.{◌≡◌, ◌≤◌};
ghost use Rattle.facts.specs.Answers.{numbered, told};
ghost use Rattle.netlist.specs.Capacities.{Allowed};
ghost use Rattle.netlist.specs.Kinds.{mapped_limit};
ghost use Rattle.netlist.specs.Records.{netlist};
ghost use Rattle.verifier.specs.PrivateWalking.{Sized, Known};
ghost use Rattle.verifier.specs.PrivateFeeding.{Tallied};
ghost use Rattle.verifier.specs.Checks.{Buffers, Refused, bad_length, legal_checks, verify_checks, verify_answer};

use facts::{Check, Refusal};
use netlist::{Capacities, record_count};
use traces::UNKNOWN;

mod feeds;
pub mod places;
pub mod traces;

// Entries of the local arrays: one for each record of a mapped netlist.
pub const RECORDS: usize = netlist::MAPPED_LIMIT;

// Up to how many records short arrays serve, and up to how many middle ones.
pub const SHORT: usize = 2048;

pub const MIDDLE: usize = 16384;

// Checks 12 to 17, with counts that are all 0 and drivers of which none is known.
fn check_with(
    source: &[u8],
    capacities: Capacities,
    mapped: &[u8],
    n: u32,
    m: u32,
    counts: &mut [u16],
    drivers: &mut [u16],
) -> Result<(), Refusal>
    requires sized { Sized (netlist source.now) (netlist mapped.now) n m }
    requires allowed { Allowed capacities }
    requires tallied { Tallied (netlist mapped.now) 0 counts.old }
    requires known { Known (netlist mapped.now) drivers.old }
    ensures { numbered result ≡ legal_checks (netlist source.now) capacities (netlist mapped.now) }
{
    places::check_records(source, mapped, n, counts)?;
    places::check_buffers(source, mapped, n, m, counts, drivers)?;
    traces::check_traces(source, mapped, n, m, drivers)?;
    feeds::check_counts(capacities, mapped, counts, n, m)
}

// Check 11: no whole records, fewer than the source's, or too many.
fn bad_length(records: usize, bytes: &[u8]) -> bool
    ensures { result ≡ bad_length records bytes.now }
{
    let m = record_count(bytes);
    bytes.len() % netlist::WIDTH != 0 || m < records || netlist::MAPPED_LIMIT < m
}

// The same, with arrays of N counts and N drivers.
fn check_in<const N: usize>(
    source: &[u8],
    capacities: Capacities,
    mapped: &[u8],
    n: u32,
    m: u32,
) -> Result<(), Refusal>
    requires sized { Sized (netlist source.now) (netlist mapped.now) n m }
    requires allowed { Allowed capacities }
    requires m_le_n { m ≤ N }
    requires n_fits { N ≤ mapped_limit }
    ensures { numbered result ≡ legal_checks (netlist source.now) capacities (netlist mapped.now) }
{
    let mut counts = [0u16; N];
    let mut drivers = [UNKNOWN; N];
    check_with(source, capacities, mapped, n, m, &mut counts, &mut drivers)
}

// The same. A netlist of few records takes short arrays, which are sooner cleared.
fn check_legal(
    source: &[u8],
    capacities: Capacities,
    mapped: &[u8],
    n: u32,
    m: u32,
) -> Result<(), Refusal>
    requires sized { Sized (netlist source.now) (netlist mapped.now) n m }
    requires allowed { Allowed capacities }
    ensures { numbered result ≡ legal_checks (netlist source.now) capacities (netlist mapped.now) }
{
    if m as usize <= SHORT {
        return check_in::<SHORT>(source, capacities, mapped, n, m);
    }
    if m as usize <= MIDDLE {
        return check_in::<MIDDLE>(source, capacities, mapped, n, m);
    }
    check_in::<RECORDS>(source, capacities, mapped, n, m)
}

// What every call with a mapped netlist checks first: 1, 26, 2 to 7, then 11 to 17.
pub fn check_mapping(source: &[u8], capacities: Capacities, mapped: &[u8]) -> Result<(), Refusal>
    ensures { numbered result ≡ verify_checks source.now capacities mapped.now }
{
    netlist::check_input(source, capacities)?;
    let n = record_count(source);
    if bad_length(n, mapped) {
        return Err(Refusal {
            check: Check::MappedLength,
            place: 0,
        });
    }
    check_legal(
        source,
        capacities,
        mapped,
        n as u32,
        record_count(mapped) as u32,
    )
}

// The verifier: checks 1, 26, 2 to 7, then 11 to 17; a legal mapped netlist's buffers are all its records from the source's size on.
pub fn verify(source: &[u8], capacities: Capacities, mapped: &[u8]) -> Result<u32, Refusal>
    ensures { told result Buffers Refused ≡ verify_answer source.now capacities mapped.now }
{
    check_mapping(source, capacities, mapped)?;
    Ok((record_count(mapped) - record_count(source)) as u32)
}
