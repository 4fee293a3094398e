// A sheet as text: numbers in decimal, single spaces, line ends. Each function writes from the start of the text that it is given on, and answers how many bytes it wrote.
ghost use Rattle.std.specs.Prelude.{◌≡◌, ◌≤◌, ◌++◌, length};
ghost use Rattle.facts.specs.Areas.{onto};
ghost use Rattle.facts.specs.Lists.{joined};
ghost use Rattle.level_sheet.specs.Text.{decimal, spaced, numbers_behind, sum_word};
ghost use Rattle.level_sheet.specs.Text;
ghost use Rattle.level_sheet.specs.PrivateTable.{table_line, LinesFit};

use crate::counting::COLUMNS;

const SPACE: u8 = 32;

const LINE_END: u8 = 10;

// The first word of the last line.
const SUM: &[u8; 3] = b"sum";

// The most digits of a number of 64 bits.
const DIGITS: usize = 20;

// A number in decimal.
fn put_decimal(n: u32, text: &mut [u8]) -> usize
    requires { length (decimal n) ≤ length text.old }
    ensures value { result ≡ length (decimal n) }
    ensures text_after { text.new ≡ onto (decimal n) text.old }
{
    let mut digits = [0u8; DIGITS];
    let k = io::decimal(u64::from(n), &mut digits);
    text[..k].copy_from_slice(&digits[..k]);
    k
}

// A space and a number.
fn put_next(n: u32, text: &mut [u8]) -> usize
    requires { length (spaced n) ≤ length text.old }
    ensures value { result ≡ length (spaced n) }
    ensures text_after { text.new ≡ onto (spaced n) text.old }
{
    text[0] = SPACE;
    1 + put_decimal(n, &mut text[1..])
}

// Numbers behind the first word of a line, and the end of the line.
fn put_numbers(numbers: &[u32], text: &mut [u8]) -> usize
    requires { length (numbers_behind numbers.now) ≤ length text.old }
    ensures value { result ≡ length (numbers_behind numbers.now) }
    ensures text_after { text.new ≡ onto (numbers_behind numbers.now) text.old }
{
    let mut end: usize = 0;
    for number in numbers {
        end += put_next(*number, &mut text[end..]);
    }
    text[end] = LINE_END;
    end + 1
}

// A line of numbers.
pub(crate) fn put_line(first: u32, rest: &[u32], text: &mut [u8]) -> usize
    requires { length (Text.line first rest.now) ≤ length text.old }
    ensures value { result ≡ length (Text.line first rest.now) }
    ensures text_after { text.new ≡ onto (Text.line first rest.now) text.old }
{
    let end = put_decimal(first, text);
    end + put_numbers(rest, &mut text[end..])
}

// The lines of the first levels.
pub(crate) fn put_levels(table: &[u32], lines: usize, text: &mut [u8]) -> usize
    requires { LinesFit table.now lines text.old }
    ensures value { result ≡ length (joined (table_line table.now) lines) }
    ensures text_after { text.new ≡ onto (joined (table_line table.now) lines) text.old }
{
    let mut end: usize = 0;
    for level in 0..lines {
        let from = COLUMNS * level;
        let counts = &table[from..from + COLUMNS];
        end += put_line(level as u32, counts, &mut text[end..]);
    }
    end
}

// The last line: the word sum and the totals.
pub(crate) fn put_sum(totals: &[u32], text: &mut [u8]) -> usize
    requires { length (sum_word ++ numbers_behind totals.now) ≤ length text.old }
    ensures value { result ≡ length (sum_word ++ numbers_behind totals.now) }
    ensures text_after { text.new ≡ onto (sum_word ++ numbers_behind totals.now) text.old }
{
    text[..SUM.len()].copy_from_slice(SUM);
    SUM.len() + put_numbers(totals, &mut text[SUM.len()..])
}
