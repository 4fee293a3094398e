// The nets of a source: the chains of their sinks, and their trees counted, for check 8 and for a list of counts (specification 4.9).
#![tactic(auto)]

ghost use Rattle.std.specs.Prelude.{◌≡◌};
ghost use Rattle.facts.specs.Answers.{numbered};
ghost use Rattle.nets.specs.Counts.{counts_answer, counts_area};

use facts::Refusal;
use netlist::Capacities;

mod counts;
pub mod sinks;
pub mod trees;

// The list of counts: what the count of one net gives for each index of a list, or a refusal that leaves the area as it was.
pub fn count_nets(
    source: &[u8],
    capacities: Capacities,
    records: &[u8],
    area: &mut [u8],
) -> Result<(), Refusal>
    ensures value { numbered result ≡ counts_answer source.now capacities records.now area.old }
    ensures area_after { area.new ≡ counts_area source.now capacities records.now area.old }
{
    counts::check_counts(source, capacities, records, area)?;
    counts::write_list(source, capacities, records, area);
    Ok(())
}
