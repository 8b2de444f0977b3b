// Writing the parts of an answer. What a failed write leaves unwritten is lost, and the error is passed on.
ghost use Rattle.std.specs.Prelude.{◌≡◌, ◌/◌, ◌∷◌, [], length, take, OnOk};
ghost use Rattle.std.specs.Counts.{IsPrefixLen};
ghost use Rattle.std.specs.Io.KnownBytes.{Appends};
ghost use Rattle.requests.specs.Parts.{coded, coded_table};

use std::io;
use std::io::Write;

pub fn byte<W: Write>(to: &mut W, b: u8) -> io::Result<()>
    ensures { OnOk result (Appends (W.contents to.old) (W.contents to.new) (b ∷ [])) }
{
    to.write_all(&[b])
}

// The number returned, and the first value besides it.
pub fn reply<W: Write>(to: &mut W, returned: u8, value: usize) -> io::Result<()>
    ensures { OnOk result (Appends (W.contents to.old) (W.contents to.new) (returned ∷ coded value)) }
{
    byte(to, returned)?;
    number(to, value)
}

// The number as four bytes, the lowest first.
pub fn number<W: Write>(to: &mut W, n: usize) -> io::Result<()>
    ensures { OnOk result (Appends (W.contents to.old) (W.contents to.new) (coded n)) }
{
    to.write_all(&n.to_le_bytes()[..4])
}

pub fn bytes<W: Write>(to: &mut W, place: &[u8]) -> io::Result<()>
    ensures { OnOk result (Appends (W.contents to.old) (W.contents to.new) place.now) }
{
    to.write_all(place)
}

// A table, two bytes for each number, in one write. A table has at most 16,384 numbers; of a longer one the first are written.
pub fn table<W: Write>(to: &mut W, numbers: &[u16]) -> io::Result<()>
    ensures { OnOk result (Appends (W.contents to.old) (W.contents to.new) (coded_table (take 16384 numbers.now))) }
{
    let mut space = [0u8; 32768];
    let size = spread(numbers, &mut space);
    to.write_all(&space[..size])
}

// The bytes of these numbers, the lower first, put at the start of `space` as far as it goes, and how many they are.
fn spread(numbers: &[u16], space: &mut [u8]) -> usize
    ensures in_space { IsPrefixLen result space.new }
    ensures value { take result space.new ≡ coded_table (take (length space.new / 2) numbers.now) }
{
    let count = numbers.len().min(space.len() / 2);
    for i in 0..count {
        let [low, high] = numbers[i].to_le_bytes();
        space[2 * i] = low;
        space[2 * i + 1] = high;
    }
    2 * count
}
