// Checks 2 to 6, and each record's number of sinks, in one pass over the records.
ghost use Rattle.std.specs.Prelude.{◌≡◌};
ghost use Rattle.facts.specs.Answers.{numbered};
ghost use Rattle.netlist.specs.Kinds;
ghost use Rattle.netlist.specs.Records.{record_at};
ghost use Rattle.levels.specs.PrivateSinks.{SlotsFit, SinksAdded, Counting, RecordCounted, Uncounted, RecordsCounted, Zeros, SourceCounted};

use facts::Refusal;
use netlist::Record;

// One more sink for each of the first slots, at the record that it names.
fn add_sinks(r: Record, used: usize, sinks: &mut [u16])
    requires { SlotsFit r used sinks.old }
    ensures { SinksAdded r used sinks.old sinks.new }
{
    for j in 0..used {
        sinks[usize::from(netlist::slot(r, j))] += 1;
    }
}

// Checks 4 to 6 of record k, whose kind uses so many slots; where they pass, its slots are counted.
fn check_used(
    source: &[u8],
    k: u32,
    r: Record,
    used: usize,
    sinks: &mut [u16],
) -> Result<(), Refusal>
    requires counting { Counting source.now k sinks.old }
    requires r_value { r ≡ record_at source.now k }
    requires used_value { used ≡ Kinds.arity r.kind }
    ensures { RecordCounted source.now k (numbered result) sinks.old sinks.new }
{
    netlist::source_reader::check_structure(source, k, r, used)?;
    add_sinks(r, used, sinks);
    Ok(())
}

// Checks 4 to 6 of record k; where they pass, its slots are counted.
fn check_record(source: &[u8], k: u32, r: Record, sinks: &mut [u16]) -> Result<(), Refusal>
    requires counting { Counting source.now k sinks.old }
    requires r_value { r ≡ record_at source.now k }
    ensures { RecordCounted source.now k (numbered result) sinks.old sinks.new }
{
    let mut check = |used: usize| check_used(source, k, r, used, sinks);
    netlist::by_kind(r.kind, &mut check)
}

// Checks 4 to 6 of every record, rising; where they pass, every slot is counted.
fn check_records(source: &[u8], n: u32, sinks: &mut [u16]) -> Result<(), Refusal>
    requires { Uncounted source.now n sinks.old }
    ensures { RecordsCounted source.now (numbered result) sinks.old sinks.new }
{
    for k in 0..n {
        let r = netlist::record_reader::read_at(source, k as usize);
        check_record(source, k, r, sinks)?;
    }
    Ok(())
}

// Checks 2 to 6; where they pass, every slot is counted.
pub(crate) fn check_structured(source: &[u8], sinks: &mut [u16]) -> Result<(), Refusal>
    requires { Zeros sinks.old }
    ensures { SourceCounted source.now (numbered result) sinks.old sinks.new }
{
    netlist::source_reader::check_size(source)?;
    check_records(source, netlist::record_count(source) as u32, sinks)
}
