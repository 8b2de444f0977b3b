// Reading the parts of a request. A part is read on after a short read, so a slow pipe gives the same requests as a file.
// A read that fails is an error, and what was read of the part is lost. A number that is not whole is `None`.
ghost use Rattle.std.specs.Prelude.{◌≡◌, ◌*◌, ◌/◌, ◌<◌, ◌^◌, ◌⊎◌, length, min, take, IfOk, IfErr, IfSome, None, OnErr};
ghost use Rattle.std.specs.Counts.{IsPrefixLen};
ghost use Rattle.std.specs.Io.KnownBytes.{Consumes, IsAtEnd, Keeps};
ghost use Rattle.requests.specs.Parts.{coded_table, number_of};
ghost use Rattle.requests.specs.Taken.{TakesArgument, TakesLonger, TakesNoTable, TakesNumber, TakesStart};

use filling::fill;
use std::io;
use std::io::Read;

// The byte that a request starts with. There is none where the input has ended.
pub fn first_byte<R: Read>(from: &mut R) -> io::Result<Option<u8>>
    ensures { IfOk result (λ start. TakesStart start (R.remaining from.old) (R.remaining from.new)) }
{
    let mut one = [0u8; 1];
    if fill(from, &mut one)? < 1 {
        return Ok(None);
    }
    Ok(Some(one[0]))
}

// Of an argument that is not whole, how many bytes of it were put, or numbers.
#[derive(Clone, Copy)]
pub struct Cut {
    pub came: usize,
}

// The next argument, put at the start of `space`, and its length. It is not whole if the input ends in it, or if it
// is longer than `space`, which is as long as such an argument may be.
pub fn read<R: Read>(from: &mut R, space: &mut [u8]) -> io::Result<Result<usize, Cut>>
    ensures ok { IfOk result (λ argument. IfOk argument (λ size. IsPrefixLen size space.new)) }
    ensures part { IfOk result (λ argument. IfErr argument (λ cut. IsPrefixLen cut.came space.new)) }
    ensures whole { IfOk result (λ argument. IfOk argument (λ size.
        TakesArgument (take size space.new) (R.remaining from.old) (R.remaining from.new))) }
    ensures cut { IfOk result (λ argument. OnErr argument
        (IsAtEnd (R.remaining from.new)
        ⊎ TakesLonger (length space.new) (R.remaining from.old) (R.remaining from.new))) }
    ensures err { OnErr result (length space.new ≡ length space.old) }
{
    let Some(size) = read_number(from)? else {
        return Ok(Err(Cut { came: 0 }));
    };
    read_bytes(from, space, size)
}

// The same of an argument whose length was read.
pub fn read_bytes<R: Read>(
    from: &mut R,
    space: &mut [u8],
    wanted: usize,
) -> io::Result<Result<usize, Cut>>
    ensures ok { IfOk result (λ argument. IfOk argument (λ size. IsPrefixLen size space.new)) }
    ensures part { IfOk result (λ argument. IfErr argument (λ cut. IsPrefixLen cut.came space.new)) }
    ensures whole { IfOk result (λ argument. IfOk argument (λ size. (size ≡ wanted)
        × Consumes (R.remaining from.old) (R.remaining from.new) (take size space.new))) }
    ensures cut { IfOk result (λ argument. OnErr argument
        (IsAtEnd (R.remaining from.new)
        ⊎ ((length space.new < wanted) × Keeps (R.remaining from.old) (R.remaining from.new)))) }
    ensures err { OnErr result (length space.new ≡ length space.old) }
{
    if wanted > space.len() {
        return Ok(Err(Cut { came: 0 }));
    }
    let came = fill(from, &mut space[..wanted])?;
    if came < wanted {
        return Ok(Err(Cut { came }));
    }
    Ok(Ok(came))
}

// The next argument as a table, two bytes for each number, and how many they are. It is not whole, either, if a number is cut.
pub fn read_table<R: Read>(from: &mut R, space: &mut [u16]) -> io::Result<Result<usize, Cut>>
    ensures ok { IfOk result (λ argument. IfOk argument (λ count. IsPrefixLen count space.new)) }
    ensures part { IfOk result (λ argument. IfErr argument (λ cut. IsPrefixLen cut.came space.new)) }
    ensures whole { IfOk result (λ argument. IfOk argument (λ count.
        TakesArgument (coded_table (take count space.new)) (R.remaining from.old) (R.remaining from.new))) }
    ensures cut { IfOk result (λ argument. OnErr argument
        (IsAtEnd (R.remaining from.new)
        ⊎ (TakesLonger 32768 (R.remaining from.old) (R.remaining from.new)
        ⊎ TakesNoTable (length space.new) (R.remaining from.old) (R.remaining from.new)))) }
    ensures err { OnErr result (length space.new ≡ length space.old) }
{
    let mut bytes = [0u8; 32768];
    match read(from, &mut bytes)? {
        Ok(length) => {
            let came = numbers(&bytes[..length], space);
            if length != 2 * came {
                return Ok(Err(Cut { came }));
            }
            Ok(Ok(came))
        }
        Err(cut) => {
            let came = numbers(&bytes[..cut.came], space);
            Ok(Err(Cut { came }))
        }
    }
}

// The numbers that these bytes make, put at the start of `space` as far as it goes, and how many they are.
fn numbers(bytes: &[u8], space: &mut [u16]) -> usize
    ensures prefix_len { IsPrefixLen result space.new }
    ensures upper_bound { result < 2 ^ 62 }
    ensures count { result ≡ min (length bytes.now / 2) (length space.new) }
    ensures value { coded_table (take result space.new) ≡ take (2 * result) bytes.now }
{
    let count = space.len().min(bytes.len() / 2);
    for i in 0..count {
        space[i] = u16::from_le_bytes([bytes[2 * i], bytes[2 * i + 1]]);
    }
    count
}

// The next number, a length or a place in a text. It is not whole if one of its four bytes does not come.
pub fn read_number<R: Read>(from: &mut R) -> io::Result<Option<usize>>
    ensures whole { IfOk result (λ number. IfSome number (λ value.
        TakesNumber value (R.remaining from.old) (R.remaining from.new))) }
    ensures cut { IfOk result (λ number. number ≡ None → IsAtEnd (R.remaining from.new)) }
{
    let mut four = [0u8; 4];
    if fill(from, &mut four)? < 4 {
        return Ok(None);
    }
    Ok(Some(number(four)))
}

// The number that four bytes make, the lowest first.
fn number(four: [u8; 4]) -> usize
    ensures { result ≡ number_of four }
{
    u32::from_le_bytes(four) as usize
}
