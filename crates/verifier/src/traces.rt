// Check 16: every slot of a source record is traced back through buffers to the driver that it names.
ghost use Rattle.std.specs.Prelude.{◌≡◌, ◌<◌, ◌≤◌, length};
ghost use Rattle.facts.specs.Answers.{numbered};
ghost use Rattle.facts.specs.Checks.{scan};
ghost use Rattle.facts.specs.Sums.{any};
ghost use Rattle.netlist.specs.Kinds;
ghost use Rattle.netlist.specs.Kinds.{mapped_limit};
ghost use Rattle.netlist.specs.Records.{netlist, record_count};
ghost use Rattle.verifier.specs.PrivateWalking.{Sized, PlacesPassed, Known, known_driver, Walkable, Traceable, Traced, SlotsTraceable, SlotsTraced};
ghost use Rattle.verifier.specs.Checks.{strays, trace_check};

use facts::{Check, Refusal};
use netlist::{Record, by_arity, record_reader, slot};

// What stands for a driver that is not known yet.
pub const UNKNOWN: u16 = 65535;

// What is known of record x's driver, where none of the first n records is a buffer.
pub fn known(n: u32, drivers: &[u16], x: u16) -> u16
    requires { x < length drivers.now }
    ensures { result ≡ known_driver n drivers.now x }
{
    if n <= u32::from(x) {
        drivers[usize::from(x)]
    } else {
        x
    }
}

// The driver of record x: x itself below n, where no buffer stands; of a buffer what is known, or what the walk back from it finds.
#[cycle(walk_walk_back)]
pub fn walk(mapped: &[u8], n: u32, drivers: &mut [u16], level: u16, x: u16) -> u16
    requires { Traceable n (netlist mapped.now) drivers.old level x }
    ensures { Traced (netlist mapped.now) x result drivers.new }
{
    if u32::from(x) < n {
        return x;
    }
    let found = drivers[usize::from(x)];
    if found != UNKNOWN {
        return found;
    }
    walk_back(mapped, n, drivers, level, x)
}

// The driver of buffer x, by a walk from its slot, one level lower; it is kept for the next walk.
#[cycle(walk_walk_back)]
fn walk_back(mapped: &[u8], n: u32, drivers: &mut [u16], level: u16, x: u16) -> u16
    requires traceable { Traceable n (netlist mapped.now) drivers.old level x }
    requires n_le_x { n ≤ x }
    ensures { Traced (netlist mapped.now) x result drivers.new }
{
    let d = walk(
        mapped,
        n,
        drivers,
        level - 1,
        netlist::slot_at(mapped, usize::from(x), 0),
    );
    drivers[usize::from(x)] = d;
    d
}

// Walks back from each buffer whose driver is not known yet, so that no walk from a source record goes further than one record.
pub fn walk_buffers(mapped: &[u8], n: u32, m: u32, drivers: &mut [u16])
    requires walkable { Walkable n (netlist mapped.now) }
    requires m_value { m ≡ record_count mapped.now }
    requires m_le_mapped_limit { m ≤ mapped_limit }
    requires known { Known (netlist mapped.now) drivers.old }
    ensures { Known (netlist mapped.now) drivers.new }
{
    for k in n..m {
        if drivers[k as usize] == UNKNOWN {
            walk_back(
                mapped,
                n,
                drivers,
                netlist::level_at(mapped, k as usize),
                k as u16,
            );
        }
    }
}

// Check 16 of the first `used` slots of a source record a that stands mapped as r: one is traced to another driver.
fn any_strays(mapped: &[u8], n: u32, drivers: &mut [u16], a: Record, r: Record, used: usize) -> bool
    requires { SlotsTraceable n (netlist mapped.now) drivers.old r used }
    ensures { SlotsTraced (netlist mapped.now) result (any (strays (netlist mapped.now) a r) used) drivers.new }
{
    for j in 0..used {
        if walk(mapped, n, drivers, r.level - 1, slot(r, j)) != slot(a, j) {
            return true;
        }
    }
    false
}

// The same of all used slots.
fn used_strays(mapped: &[u8], n: u32, drivers: &mut [u16], a: Record, r: Record) -> bool
    requires { SlotsTraceable n (netlist mapped.now) drivers.old r (Kinds.arity a.kind) }
    ensures { SlotsTraced (netlist mapped.now) result (any (strays (netlist mapped.now) a r) (Kinds.arity a.kind)) drivers.new }
{
    let mut strays = |used: usize| any_strays(mapped, n, drivers, a, r, used);
    by_arity(a.kind, &mut strays)
}

// Check 16 of every source record, rising.
pub(crate) fn check_traces(
    source: &[u8],
    mapped: &[u8],
    n: u32,
    m: u32,
    drivers: &mut [u16],
) -> Result<(), Refusal>
    requires sized { Sized (netlist source.now) (netlist mapped.now) n m }
    requires places_passed { PlacesPassed (netlist source.now) (netlist mapped.now) }
    requires known { Known (netlist mapped.now) drivers.old }
    ensures { numbered result ≡ scan (trace_check (netlist source.now) (netlist mapped.now)) 0 (record_count source.now) }
{
    walk_buffers(mapped, n, m, drivers);
    for k in 0..n {
        if used_strays(
            mapped,
            n,
            drivers,
            record_reader::read_at(source, k as usize),
            record_reader::read_at(mapped, k as usize),
        ) {
            return Err(Refusal {
                check: Check::Driver,
                place: k,
            });
        }
    }
    Ok(())
}
