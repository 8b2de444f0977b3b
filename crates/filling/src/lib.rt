// Filling a space from a reader, however small the pieces in which the input comes.
#![tactic(auto)]

ghost use Rattle.std.specs.Prelude.{◌≡◌, ◌<◌, length, take, IfOk, OnErr};
ghost use Rattle.std.specs.Counts.{IsPrefixLen};
ghost use Rattle.std.specs.Io.KnownBytes.{Consumes, IsAtEnd};

use std::io;
use std::io::Read;

// Reads until `space` is full or the input ends, and says how many bytes came. They stand at the start of `space`. If a read fails,
// what came before is lost.
pub fn fill<R: Read>(from: &mut R, space: &mut [u8]) -> io::Result<usize>
    ensures in_space { IfOk result (λ count. IsPrefixLen count space.new) }
    ensures taken { IfOk result (λ count.
        Consumes (R.remaining from.old) (R.remaining from.new) (take count space.new)) }
    ensures ended { IfOk result (λ count. count < length space.new → IsAtEnd (R.remaining from.new)) }
    ensures err { OnErr result (length space.new ≡ length space.old) }
{
    let mut done = 0;
    // no range to go over: each read decides where the next one starts
    while done < space.len() {
        let count = from.read(&mut space[done..])?;
        if count == 0 {
            break;
        }
        done += count;
    }
    Ok(done)
}
