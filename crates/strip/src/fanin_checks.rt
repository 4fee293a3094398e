// What a mapped netlist must have before its slots are traced, whatever its source: buffers from the first one on, and at every record 14 and 15.
ghost use Rattle.std.specs.Prelude.{◌≡◌, ◌≤◌};
ghost use Rattle.facts.specs.Sums.{any};
ghost use Rattle.netlist.specs.Kinds;
ghost use Rattle.netlist.specs.Records.{netlist, record_count};
ghost use Rattle.verifier.specs.PrivateFeeding.{bad_fanin};
ghost use Rattle.verifier.specs.PrivateWalking.{Known};
ghost use Rattle.strip.specs.PrivateTracing.{bad_fanins, bad_buffer, SizesFit, BuffersDecided, FaninsDecided};

use netlist::{Record, by_arity, record_reader, slot};
use verifier::{places, traces};

// Whether one of the first slots of a record fails 14 or 15.
fn any_bad_fanin(mapped: &[u8], r: Record, used: usize) -> bool
    ensures { result ≡ any (bad_fanin (netlist mapped.now) r) used }
{
    for j in 0..used {
        if places::bad_fanin(mapped, r, j) {
            return true;
        }
    }
    false
}

// The same of all used slots.
fn bad_fanins(mapped: &[u8], r: Record) -> bool
    ensures { result ≡ any (bad_fanin (netlist mapped.now) r) (Kinds.arity r.kind) }
{
    let mut any_bad = |used: usize| any_bad_fanin(mapped, r, used);
    by_arity(r.kind, &mut any_bad)
}

// Whether one of the first n records fails 14 or 15.
fn any_bad_record(mapped: &[u8], n: u32) -> bool
    requires { n ≤ record_count mapped.now }
    ensures { result ≡ any (bad_fanins (netlist mapped.now)) n }
{
    for k in 0..n {
        if bad_fanins(mapped, record_reader::read_at(mapped, k as usize)) {
            return true;
        }
    }
    false
}

// Whether a record is no buffer, or fails 14 or 15.
fn bad_buffer(mapped: &[u8], r: Record) -> bool
    ensures { result ≡ bad_buffer (netlist mapped.now) r }
{
    r.kind != netlist::BUFFER || places::bad_fanin(mapped, r, 0)
}

// Whether every record from n on is a buffer that passes 14 and 15; its driver is kept if its fanin's is known.
fn buffers_pass(mapped: &[u8], n: u32, m: u32, drivers: &mut [u16]) -> bool
    requires sizes_fit { SizesFit (netlist mapped.now) n m }
    requires known { Known (netlist mapped.now) drivers.old }
    ensures { BuffersDecided n (netlist mapped.now) result drivers.new }
{
    for k in n..m {
        let r = record_reader::read_at(mapped, k as usize);
        if bad_buffer(mapped, r) {
            return false;
        }
        let d = traces::known(n, drivers, slot(r, 0));
        drivers[k as usize] = d;
    }
    true
}

// Whether every record passes 14 and 15 and those from n on are buffers.
pub(crate) fn fanins_pass(mapped: &[u8], n: u32, m: u32, drivers: &mut [u16]) -> bool
    requires sizes_fit { SizesFit (netlist mapped.now) n m }
    requires known { Known (netlist mapped.now) drivers.old }
    ensures { FaninsDecided n (netlist mapped.now) result drivers.new }
{
    if any_bad_record(mapped, n) {
        return false;
    }
    buffers_pass(mapped, n, m, drivers)
}
