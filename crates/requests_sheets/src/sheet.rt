// Request 4, a sheet: the number returned, and the node count or the place.
use requests::{input, output};
use std::io;
use std::io::{Read, Write};

// Reads the sheet, answers, and says whether the request was whole. A sheet may have 16,384 bytes.
pub fn answered(from: &mut impl Read, to: &mut impl Write) -> io::Result<bool> {
    let mut space = [0u8; 16384];
    let Ok(length) = input::read(from, &mut space)? else {
        return Ok(false);
    };
    let reply = answers::sheet_in_numbers(sheets::check(&space[..length]));
    output::reply(to, reply.number, reply.value)?;
    Ok(true)
}
