// The program `map`: standard input is three bytes for the capacities, then the source; the mapper's seven numbers, with an empty price list, go to standard output.
#![tactic(auto)]

ghost use Rattle.std.specs.Prelude.{◌≡◌, [], drop};
ghost use Rattle.facts.specs.Answers.{told};
ghost use Rattle.netlist.specs.CapacityBytes.{capacity_bytes, capacities_in};
ghost use Rattle.mapper.specs.Answer.{accepted, refusal, map_answer, mapping_numbers};

use facts::Refusal;
use mapper::MapTotals;
use netlist::capacity_reader;
use netlist::capacity_reader::CAPACITY_BYTES;
use std::io;

// The capacities, and a source of one record more than the longest.
const INPUT_LIMIT: usize = CAPACITY_BYTES + netlist::WIDTH * (netlist::SOURCE_LIMIT + 1);

const AREA: usize = 60000;

// The line of an answer: its seven numbers with single spaces.
fn print_line(rt: &impl Print, numbers: [u32; 7]) -> io::Result<()> {
    let [number, place, size, buffers, depth, junctions, share] = numbers;
    println!(rt; "{number} {place} {size} {buffers} {depth} {junctions} {share}")
}

// The mapping of an input: the capacities, then the source; the price list is empty.
fn map_input(input: &[u8], area: &mut [u8]) -> Result<MapTotals, Refusal>
    ensures { told result accepted refusal ≡ map_answer (drop capacity_bytes input.now) (capacities_in input.now) [] area.old }
{
    let capacities = capacity_reader::read_capacities(input);
    let source = input.get(CAPACITY_BYTES..).unwrap_or(&[]);
    mapper::map_netlist(source, capacities, &[], area)
}

// The seven numbers of that mapping; those after a refusal's place are 0.
fn map_numbers(input: &[u8], area: &mut [u8]) -> [u32; 7]
    ensures { result ≡ mapping_numbers (map_answer (drop capacity_bytes input.now) (capacities_in input.now) [] area.old) }
{
    match map_input(input, area) {
        Ok(t) => [0, 0, t.size, t.buffers, t.depth, t.junctions, t.share],
        Err(refusal) => [refusal.check.number(), refusal.place, 0, 0, 0, 0, 0],
    }
}

fn main(rt: HostRuntime) -> io::Result<()> {
    let mut input = [0u8; INPUT_LIMIT];
    let mut area = [0u8; AREA];
    let input = reading::read_full(&mut rt.stdin(), &mut input);
    print_line(&rt, map_numbers(input, &mut area))
}
