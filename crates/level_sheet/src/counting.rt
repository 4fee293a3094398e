// Records counted by level and sort, in a table of four columns for each level.
ghost use Rattle.std.specs.Prelude.{◌≡◌, ◌<◌, ◌≤◌, replicate};
ghost use Rattle.netlist.specs.Kinds.{top_level, mapped_limit};
ghost use Rattle.netlist.specs.Records.{netlist, record_count};
ghost use Rattle.level_sheet.specs.Counts.{totals, line_count};
ghost use Rattle.level_sheet.specs.PrivateTable.{table_size, column_of, table_index, table_of, Countable};

use netlist::{BUFFER, INPUT, OUTPUT, Record, record_reader};

// Columns of a line: inputs, gates, buffers, outputs.
pub(crate) const COLUMNS: usize = 4;

// Levels, from 0 on.
pub(crate) const LEVELS: usize = netlist::TOP_LEVEL as usize + 1;

// Entries of the table.
pub(crate) const TABLE_SIZE: usize = COLUMNS * LEVELS;

// The column in which a kind is counted.
fn column_of(kind: u8) -> usize
    ensures { result ≡ column_of kind }
{
    match kind {
        INPUT => 0,
        _ if netlist::is_gate(kind) => 1,
        BUFFER => 2,
        _ => 3,
    }
}

// Where in the table a record is counted.
fn index_of(r: Record) -> usize
    requires { r.level ≤ top_level }
    ensures { (result ≡ table_index r) × (result < table_size) }
{
    COLUMNS * usize::from(r.level) + column_of(r.kind)
}

// Every record, counted at its level and in its column.
pub(crate) fn count_records(mapped: &[u8], table: &mut [u32])
    requires countable { Countable (netlist mapped.now) }
    requires table_before { table.old ≡ replicate table_size 0 }
    ensures { table.new ≡ table_of (netlist mapped.now) }
{
    for k in 0..netlist::record_count(mapped) {
        table[index_of(record_reader::read_at(mapped, k))] += 1;
    }
}

// How many levels have a line.
pub(crate) fn line_count(mapped: &[u8]) -> usize
    ensures { result ≡ line_count (netlist mapped.now) }
{
    let mut lines: usize = 0;
    for k in 0..netlist::record_count(mapped) {
        lines = lines.max(usize::from(record_reader::read_at(mapped, k).level) + 1);
    }
    lines
}

// How many records of each sort there are, in the order of the columns.
pub(crate) fn count_sorts(mapped: &[u8]) -> [u32; COLUMNS]
    requires { record_count mapped.now ≤ mapped_limit }
    ensures { result ≡ totals (netlist mapped.now) }
{
    [
        netlist::count_kind(mapped, INPUT) as u32,
        netlist::count_gates(mapped) as u32,
        netlist::count_kind(mapped, BUFFER) as u32,
        netlist::count_kind(mapped, OUTPUT) as u32,
    ]
}
