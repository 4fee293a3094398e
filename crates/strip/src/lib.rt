// Stripping (specification 4.11): the source that a mapped netlist came from.
#![tactic(auto)]

ghost use Rattle.std.specs.Prelude.{◌≡◌};
ghost use Rattle.facts.specs.Answers.{numbered, told};
ghost use Rattle.facts.specs.Areas.{onto};
ghost use Rattle.facts.specs.Checks.{unless_refused};
ghost use Rattle.netlist.specs.Records.{netlist};
ghost use Rattle.strip.specs.Answer.{Records, Refused, source_size, stripped_bytes, room_check, stripping_checks, strip_checks, strip_answer, strip_area};
ghost use Rattle.strip.specs.PrivateTracing.{SizesFit, stripping_area};

use facts::{Check, Refusal};
use netlist::{Capacities, MAPPED_LIMIT, SOURCE_LIMIT, WIDTH, record_count};

mod fanin_checks;
mod tracing;

// Bytes of the largest source.
const SOURCE_BYTES: usize = WIDTH * SOURCE_LIMIT;

// N: how many records stand before the first buffer.
fn source_size(mapped: &[u8]) -> usize
    ensures { result ≡ source_size (netlist mapped.now) }
{
    let m = record_count(mapped);
    for k in 0..m {
        if netlist::record_reader::kind_within(mapped, k) == netlist::BUFFER {
            return k;
        }
    }
    m
}

// Check 25; accepted, the source at the start of the area.
fn write_source(source: &[u8], area: &mut [u8]) -> Result<(), Refusal>
    ensures value { numbered result ≡ room_check source.now area.old }
    ensures area_after { area.new ≡ unless_refused (room_check source.now area.old) (onto source.now area.old) area.old }
{
    let n = source.len();
    if area.len() < n {
        return Err(Refusal {
            check: Check::SourceRoom,
            place: 0,
        });
    }
    area[..n].copy_from_slice(source);
    Ok(())
}

// Checks 24 and 25 of what is left of a mapped netlist: the verifier decides whether it is a source.
fn strip_traced(
    capacities: Capacities,
    mapped: &[u8],
    source: &[u8],
    area: &mut [u8],
) -> Result<(), Refusal>
    requires { source.now ≡ stripped_bytes mapped.now }
    ensures value { numbered result ≡ stripping_checks capacities mapped.now area.old }
    ensures area_after { area.new ≡ stripping_area capacities mapped.now area.old }
{
    match verifier::check_mapping(source, capacities, mapped) {
        Ok(()) => write_source(source, area),
        Err(_) => Err(Refusal {
            check: Check::NoSource,
            place: 0,
        }),
    }
}

// Checks 24 and 25 of a mapped netlist within the limits.
fn strip_counted(
    capacities: Capacities,
    mapped: &[u8],
    n: usize,
    m: usize,
    area: &mut [u8],
) -> Result<(), Refusal>
    requires { SizesFit (netlist mapped.now) n m }
    ensures value { numbered result ≡ stripping_checks capacities mapped.now area.old }
    ensures area_after { area.new ≡ stripping_area capacities mapped.now area.old }
{
    let mut source = [0u8; SOURCE_BYTES];
    if tracing::trace_source(mapped, n as u32, m as u32, &mut source) {
        return strip_traced(capacities, mapped, &source[0..WIDTH * n], area);
    }
    Err(Refusal {
        check: Check::NoSource,
        place: 0,
    })
}

// Checks 24 and 25; accepted, the source at the start of the area.
fn strip_mapped(capacities: Capacities, mapped: &[u8], area: &mut [u8]) -> Result<(), Refusal>
    ensures value { numbered result ≡ stripping_checks capacities mapped.now area.old }
    ensures area_after { area.new ≡ stripping_area capacities mapped.now area.old }
{
    if mapped.len() % WIDTH != 0 {
        return Err(Refusal {
            check: Check::NoSource,
            place: 0,
        });
    }
    let m = record_count(mapped);
    if MAPPED_LIMIT < m {
        return Err(Refusal {
            check: Check::NoSource,
            place: 0,
        });
    }
    let n = source_size(mapped);
    if SOURCE_LIMIT < n {
        return Err(Refusal {
            check: Check::NoSource,
            place: 0,
        });
    }
    strip_counted(capacities, mapped, n, m, area)
}

// Checks 1, 26, 24 and 25; accepted, the source at the start of the area.
fn strip_checked(capacities: Capacities, mapped: &[u8], area: &mut [u8]) -> Result<(), Refusal>
    ensures value { numbered result ≡ strip_checks capacities mapped.now area.old }
    ensures area_after { area.new ≡ strip_area capacities mapped.now area.old }
{
    netlist::check_capacities(capacities)?;
    strip_mapped(capacities, mapped, area)
}

// Stripping: checks 1, 26, 24 and 25; accepted, the area begins with the source, whose number of records is answered.
pub fn strip(capacities: Capacities, mapped: &[u8], area: &mut [u8]) -> Result<u32, Refusal>
    ensures answer { told result Records Refused ≡ strip_answer capacities mapped.now area.old }
    ensures area { area.new ≡ strip_area capacities mapped.now area.old }
{
    strip_checked(capacities, mapped, area)?;
    Ok(source_size(mapped) as u32)
}
