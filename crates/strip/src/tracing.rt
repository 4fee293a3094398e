// The source that a mapped netlist would have: its records before the first buffer, with every used slot traced back.
ghost use Rattle.std.specs.Prelude.{◌≡◌, ◌*◌, ◌≤◌, length};
ghost use Rattle.facts.specs.Areas.{onto};
ghost use Rattle.netlist.specs.Kinds.{width, mapped_limit};
ghost use Rattle.netlist.specs.Kinds;
ghost use Rattle.netlist.specs.Records.{netlist};
ghost use Rattle.verifier.specs.PrivateWalking.{Known, SlotsTraceable};
ghost use Rattle.strip.specs.Answer.{stripped_bytes};
ghost use Rattle.strip.specs.PrivateTracing.{SizesFit, RecordTraced, LeftReady, LeftWritten};

use crate::fanin_checks;
use netlist::{Record, by_arity, record_reader, record_writer, slot};
use verifier::traces::UNKNOWN;
use verifier::{MIDDLE, RECORDS, SHORT, traces};

// A record with its first slots, the used ones, traced back.
fn trace_slots(mapped: &[u8], n: u32, drivers: &mut [u16], r: Record, used: usize) -> Record
    requires slots_traceable { SlotsTraceable n (netlist mapped.now) drivers.old r used }
    requires used_value { used ≡ Kinds.arity r.kind }
    ensures { RecordTraced (netlist mapped.now) r result drivers.new }
{
    let mut slots = r.slots;
    for j in 0..used {
        slots[j] = traces::walk(mapped, n, drivers, r.level - 1, slot(r, j));
    }
    Record { slots, ..r }
}

// The same of all slots that the kind uses.
fn trace_used(mapped: &[u8], n: u32, drivers: &mut [u16], r: Record) -> Record
    requires { SlotsTraceable n (netlist mapped.now) drivers.old r (Kinds.arity r.kind) }
    ensures { RecordTraced (netlist mapped.now) r result drivers.new }
{
    let mut trace = |used: usize| trace_slots(mapped, n, drivers, r, used);
    by_arity(r.kind, &mut trace)
}

// The records before the first buffer, with their used slots traced back, at the start of an area.
fn write_left(mapped: &[u8], n: u32, drivers: &mut [u16], source: &mut [u8])
    requires { LeftReady (netlist mapped.now) n drivers.old source.old }
    ensures { source.new ≡ onto (stripped_bytes mapped.now) source.old }
{
    for k in 0..n {
        let r = record_reader::read_at(mapped, k as usize);
        let traced = trace_used(mapped, n, drivers, r);
        record_writer::write_record(source, k as usize, traced);
    }
}

// The same, with an array of drivers of which none is known; nothing is written where some record cannot be traced from.
fn trace_with(mapped: &[u8], n: u32, m: u32, drivers: &mut [u16], source: &mut [u8]) -> bool
    requires sizes_fit { SizesFit (netlist mapped.now) n m }
    requires known { Known (netlist mapped.now) drivers.old }
    requires n_in_bounds { width * n ≤ length source.old }
    ensures { LeftWritten mapped.now result source.old source.new }
{
    if fanin_checks::fanins_pass(mapped, n, m, drivers) {
        traces::walk_buffers(mapped, n, m, drivers);
        write_left(mapped, n, drivers, source);
        return true;
    }
    false
}

// The same, with an array for N records.
fn trace_in<const N: usize>(mapped: &[u8], n: u32, m: u32, source: &mut [u8]) -> bool
    requires sizes_fit { SizesFit (netlist mapped.now) n m }
    requires n_in_bounds { width * n ≤ length source.old }
    requires m_le_n { m ≤ N }
    requires n_fits { N ≤ mapped_limit }
    ensures { LeftWritten mapped.now result source.old source.new }
{
    let mut drivers = [UNKNOWN; N];
    trace_with(mapped, n, m, &mut drivers, source)
}

// The same. A netlist of few records takes a short array, which is sooner filled.
pub(crate) fn trace_source(mapped: &[u8], n: u32, m: u32, source: &mut [u8]) -> bool
    requires sizes_fit { SizesFit (netlist mapped.now) n m }
    requires n_in_bounds { width * n ≤ length source.old }
    ensures { LeftWritten mapped.now result source.old source.new }
{
    if m as usize <= SHORT {
        return trace_in::<SHORT>(mapped, n, m, source);
    }
    if m as usize <= MIDDLE {
        return trace_in::<MIDDLE>(mapped, n, m, source);
    }
    trace_in::<RECORDS>(mapped, n, m, source)
}
