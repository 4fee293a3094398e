// The height of a number of sinks (specification 2.7), looked up in a table.
ghost use Rattle.std.specs.Prelude.{◌≡◌, suc, ◌≤◌};
ghost use Rattle.levels.specs.HeightTable.{height_row, height_in};

use netlist::{LEAST_CAPACITY, MOST_CAPACITY, SLOTS, SOURCE_LIMIT};
use std::hint::select_unpredictable;

// The slots of the largest source: no net has more sinks.
const SINK_LIMIT: u16 = (SLOTS * SOURCE_LIMIT) as u16;

// Rows of the table: one for each capacity, from the least on.
const ROWS: usize = (MOST_CAPACITY - LEAST_CAPACITY) as usize + 1;

// Entries of a row: heights 0 to 14.
const HEIGHTS: usize = 15;

// For each height the largest number of sinks that has it or less: the capacity to the power of the height, capped at the slots of the largest source.
const HEIGHT_TABLE: [[u16; HEIGHTS]; ROWS] = [
    [
        1, 2, 4, 8, 16, 32, 64, 128, 256, 512, 1024, 2048, 4096, 8192, SINK_LIMIT,
    ],
    [
        1, 3, 9, 27, 81, 243, 729, 2187, 6561, SINK_LIMIT, SINK_LIMIT, SINK_LIMIT, SINK_LIMIT,
        SINK_LIMIT, SINK_LIMIT,
    ],
    [
        1, 4, 16, 64, 256, 1024, 4096, SINK_LIMIT, SINK_LIMIT, SINK_LIMIT, SINK_LIMIT, SINK_LIMIT,
        SINK_LIMIT, SINK_LIMIT, SINK_LIMIT,
    ],
];

// The table's row of a capacity.
pub(crate) fn row_of(capacity: usize) -> [u16; HEIGHTS]
    requires { (2 ≤ capacity) × (capacity ≤ 4) }
    ensures { result ≡ height_row capacity }
{
    HEIGHT_TABLE[capacity - LEAST_CAPACITY as usize]
}

// The height of any number of sinks: the first, from 0 on, whose entry is at least as large, or 15 where none is. Few nets come here: it stays a function of its own, apart from the loop over records.
#[inline(never)]
fn height_of_many(row: &[u16; HEIGHTS], sinks: u16) -> usize
    ensures { result ≡ height_in row.now sinks }
{
    row.iter()
        .position(|&most| sinks <= most)
        .unwrap_or(HEIGHTS)
}

// One more than the height of a number of sinks. Most nets are small: theirs is picked by comparisons, with no branch among them.
pub(crate) fn rise(row: &[u16; HEIGHTS], sinks: u16) -> u16
    ensures { result ≡ suc (height_in row.now sinks) }
{
    if row[3] < sinks {
        return 1 + height_of_many(row, sinks) as u16;
    }
    let two_or_more = select_unpredictable(row[2] < sinks, 4, 3);
    let one_or_more = select_unpredictable(row[1] < sinks, two_or_more, 2);
    select_unpredictable(row[0] < sinks, one_or_more, 1)
}
