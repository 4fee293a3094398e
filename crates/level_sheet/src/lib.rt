// The sheet of a mapped netlist: its records by level, as text (specification 7.2).
#![tactic(auto)]

ghost use Rattle.std.specs.Prelude.{◌≡◌, ◌≤◌, length};
ghost use Rattle.facts.specs.Areas.{onto};
ghost use Rattle.netlist.specs.Records.{netlist};
ghost use Rattle.level_sheet.specs.Text.{sheet_of, sheet_text, text_limit};
ghost use Rattle.level_sheet.specs.PrivateTable.{Countable};

use counting::{LEVELS, TABLE_SIZE};
use netlist::Capacities;

mod counting;
mod writing;

// The most bytes of a mapped file.
pub const FILE_LIMIT: usize = 60000;

// The most bytes of a line.
const LINE_LIMIT: usize = 30;

// Room for a line of each level and the last line.
pub const TEXT_LIMIT: usize = LINE_LIMIT * (LEVELS + 1);

// The sheet of a netlist, from the start of the text on. Answers its length.
fn put_sheet(mapped: &[u8], text: &mut [u8]) -> usize
    requires countable { Countable (netlist mapped.now) }
    requires text_limit_in_bounds { text_limit ≤ length text.old }
    ensures value { result ≡ length (sheet_of (netlist mapped.now)) }
    ensures text_after { text.new ≡ onto (sheet_of (netlist mapped.now)) text.old }
{
    let mut table = [0u32; TABLE_SIZE];
    counting::count_records(mapped, &mut table);
    let end = writing::put_levels(&table, counting::line_count(mapped), text);
    let totals = counting::count_sorts(mapped);
    end + writing::put_sum(&totals, &mut text[end..])
}

// What is printed of a source, capacities and a mapped netlist, at the start of the text: the sheet where the verifier accepts, else its refusal. Answers its length.
pub fn write_sheet(source: &[u8], capacities: Capacities, mapped: &[u8], text: &mut [u8]) -> usize
    requires { text_limit ≤ length text.old }
    ensures value { result ≡ length (sheet_text source.now capacities mapped.now) }
    ensures text_after { text.new ≡ onto (sheet_text source.now capacities mapped.now) text.old }
{
    match verifier::check_mapping(source, capacities, mapped) {
        Ok(()) => put_sheet(mapped, text),
        Err(refusal) => writing::put_line(refusal.check.number(), &[refusal.place], text),
    }
}
