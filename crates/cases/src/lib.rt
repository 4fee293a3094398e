// Stored test cases: a file is a four-byte count and then fields, each a four-byte length and its bytes. Low byte first.
#![tactic(auto)]

ghost use Rattle.std.specs.Prelude.{ℕ, ◌≡◌, ◌<◌, ◌↔◌, true, length, take, drop, [], slice_index};
ghost use Rattle.std.specs.Iterator.{at_most};
ghost use Rattle.std.specs.Option.{MatchOption};
ghost use Rattle.cases.specs.Numbers.{number_bytes, first_number, number_at};

const NUMBER: usize = 4;

// The number at the start of some bytes, 0 where they end before it does.
fn first_number(bytes: &[u8]) -> u32
    ensures { result ≡ first_number bytes.now }
{
    match bytes.first_chunk() {
        Some(four) => u32::from_le_bytes(*four),
        None => 0,
    }
}

// The bytes behind that number.
fn after_number(bytes: &[u8]) -> &[u8]
    ensures { result.now ≡ drop number_bytes bytes.now }
{
    bytes.get(NUMBER..).unwrap_or(&[])
}

// The first N numbers of some bytes.
pub fn numbers<const N: usize>(bytes: &[u8]) -> [u32; N]
    ensures { (k : ℕ) → k < N → slice_index result k ≡ number_at bytes.now k }
{
    let mut numbers = [0; N];
    let mut rest = bytes;
    for k in 0..N {
        numbers[k] = first_number(rest);
        rest = after_number(rest);
    }
    numbers
}

// The fields that a file still has.
#[derive(Drop)]
pub struct Fields<'a> {
    rest: &'a [u8],
}

impl<'a> Fields<'a> {
    ghost use Rattle.cases.specs.Fields.{left};

    // The fields behind a file's count; None where the file ends before its count does.
    pub fn of_file(file: &'a [u8]) -> Option<Fields<'a>>
        ensures { MatchOption result (length file.now < number_bytes) (λ f. left f ≡ drop number_bytes file.now) }
    {
        let rest = file.get(NUMBER..)?;
        Some(Fields { rest })
    }

    // Whether nothing is left: the file ended with the last field that was read, or a field ran past its end.
    pub fn is_done(&self) -> bool
        ensures { (result ≡ true) ↔ (left self.now ≡ []) }
    {
        self.rest.is_empty()
    }
}

impl<'a> Iterator for Fields<'a> {
    ghost use Rattle.cases.specs.Fields.{GivesField};

    type Item = &'a [u8];

    ghost next_gives = { GivesField };

    ghost remaining = { λ s. at_most (length s.rest.now) };

    // The bytes of the next field. Behind a field that runs past the file's end there is none.
    fn next(&mut self) -> Option<&'a [u8]> {
        let rest = self.rest;
        self.rest = &[];
        let size = u32::from_le_bytes(*rest.first_chunk()?);
        let after = &rest[NUMBER..];
        let field = after.get(..size as usize)?;
        self.rest = &after[field.len()..];
        Some(field)
    }
}

// The start of an area, with as many of the bytes in it as it has room for.
pub fn filled<'a>(area: &'a mut [u8], bytes: &[u8]) -> &'a mut [u8]
    ensures { result.now ≡ take (length area.old) bytes.now }
{
    let n = bytes.len().min(area.len());
    area[..n].copy_from_slice(&bytes[..n]);
    &mut area[..n]
}
