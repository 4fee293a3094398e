// Why a call refuses: the first check that fails (specification 3.3), and its place.
ghost use Rattle.std.specs.Prelude.{◌≡◌};
ghost use Rattle.facts.specs.Answers.{number_of};

use std::fmt;

// The checks of specification 3.3, in the order of their numbers.
#[derive(Clone, Copy, Debug, PartialEq, Eq, Hash)]
pub enum Check {
    // A buffer's capacity.
    BufferCapacity = 1,
    // The source: its length, its number of records, and of each record its kind, inversion, slots and level.
    SourceLength,
    SourceSize,
    SourceKind,
    Inversion,
    Slots,
    Level,
    // A net without a tree.
    NoTree,
    // The mapped netlist to be written: its number of records, and room for it.
    MappedSize,
    MappedRoom,
    // The mapped netlist handed in: its length; a source's record kept; a buffer's record; a fanin, its level; the driver of a slot traced
    // back; the slots that a record feeds.
    MappedLength,
    SourceKept,
    BufferRecord,
    Fanin,
    FaninLevel,
    Driver,
    Capacity,
    // Rows and areas: their lengths, and a byte of a row.
    RowLengths,
    Bit,
    // The records asked for: one that drives no net, and the lengths of the lists.
    NoDriver,
    ListLengths,
    // Least levels: one above the largest, and the length of the copy.
    LeastLevel,
    CopyLength,
    // Stripping: no source, and room for it.
    NoSource,
    SourceRoom,
    // An input's capacity.
    InputCapacity,
    // The price list: its length, and a price.
    PriceListLength,
    Price,
}

// The first check that fails, and its place.
#[derive(Clone, Copy, Debug, PartialEq, Eq, Hash)]
pub struct Refusal {
    pub check: Check,
    pub place: u32,
}

impl Check {
    // Its number in the table.
    pub fn number(self) -> u32
        ensures { result ≡ number_of self }
    {
        self as u32
    }
}

// Number and place, with a space between them.
impl fmt::Display for Refusal {
    fn fmt<W: fmt::Write>(&self, f: &mut fmt::Formatter<W>) -> fmt::Result {
        write!(f, "{} {}", self.check.number(), self.place)
    }
}
