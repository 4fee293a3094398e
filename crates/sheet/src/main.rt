// The program `sheet`: the files s, source and mapped of the working directory; the mapped netlist's sheet by level, or the verifier's refusal, goes to standard output.
#![tactic(auto)]

ghost use Rattle.std.specs.Prelude.{◌≡◌, ◌≤◌, length};
ghost use Rattle.io.specs.Counts.{IsPrefixLen};
ghost use Rattle.facts.specs.Areas.{onto};
ghost use Rattle.netlist.specs.CapacityBytes.{capacities_in};
ghost use Rattle.level_sheet.specs.Text.{sheet_text, text_limit};

use netlist::capacity_reader;
use std::io;

// One record more than the longest source.
const SOURCE_READ: usize = netlist::WIDTH * (netlist::SOURCE_LIMIT + 1);

// One byte more than a mapped file may have, which is no whole number of records.
const MAPPED_READ: usize = level_sheet::FILE_LIMIT + 1;

// What is printed of the three files, at the start of the text. Answers its length.
fn write_text(s: &[u8], source: &[u8], mapped: &[u8], text: &mut [u8]) -> usize
    requires { text_limit ≤ length text.old }
    ensures prefix_len { IsPrefixLen result text.new }
    ensures value { result ≡ length (sheet_text source.now (capacities_in s.now) mapped.now) }
    ensures text_after { text.new ≡ onto (sheet_text source.now (capacities_in s.now) mapped.now) text.old }
{
    let capacities = capacity_reader::read_capacities(s);
    level_sheet::write_sheet(source, capacities, mapped, text)
}

fn main(rt: HostRuntime) -> io::Result<()> {
    let mut s = [0u8; capacity_reader::CAPACITY_BYTES];
    let mut source = [0u8; SOURCE_READ];
    let mut mapped = [0u8; MAPPED_READ];
    let mut text = [0u8; level_sheet::TEXT_LIMIT];
    let s = reading::read_file(&rt, "s", &mut s);
    let source = reading::read_file(&rt, "source", &mut source);
    let mapped = reading::read_file(&rt, "mapped", &mut mapped);
    let end = write_text(s, source, mapped, &mut text);
    rt.write_all(&text[..end])
}
