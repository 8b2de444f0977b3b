// Request 11, a vocabulary: the number returned, and the value.
ghost use Rattle.std.specs.Prelude.{◌≤◌};

use requests::{input, output};
use std::io;
use std::io::{Read, Write};

// Reads the vocabulary, answers, and says whether the request was whole. It may have 1,048,576 bytes. Most have far fewer, and a space
// of the most takes longer to fill with zeros than they take to be checked.
pub fn answered(from: &mut impl Read, to: &mut impl Write) -> io::Result<bool> {
    let Some(size) = input::read_number(from)? else {
        return Ok(false);
    };
    if size <= 4096 {
        answered_within::<4096>(from, to, size)
    } else {
        answered_within::<1048576>(from, to, size)
    }
}

// A vocabulary that is to fit a space of N bytes.
fn answered_within<const N: usize>(
    from: &mut impl Read,
    to: &mut impl Write,
    size: usize,
) -> io::Result<bool>
    requires { N ≤ 1048576 }
{
    let mut space = [0u8; N];
    let Ok(length) = input::read_bytes(from, &mut space, size)? else {
        return Ok(false);
    };
    let reply = answers::in_numbers(vocabularies::check(&space[..length]));
    output::reply(to, reply.number, reply.value)?;
    Ok(true)
}
