// Request 7, lines and a sheet: the number returned, the value, and the sheet afterwards.
use requests::{input, output};
use std::io;
use std::io::{Read, Write};

// Reads the lines and the sheet, answers, and says whether the request was whole. Each may have 16,384 bytes.
pub fn answered(from: &mut impl Read, to: &mut impl Write) -> io::Result<bool> {
    let mut line_space = [0u8; 16384];
    let Ok(length) = input::read(from, &mut line_space)? else {
        return Ok(false);
    };
    let mut sheet_space = [0u8; 16384];
    let Ok(size) = input::read(from, &mut sheet_space)? else {
        return Ok(false);
    };
    answer(to, &line_space[..length], &mut sheet_space[..size])?;
    Ok(true)
}

fn answer(to: &mut impl Write, lines: &[u8], sheet: &mut [u8]) -> io::Result<()> {
    let reply = answers::in_numbers(imports::make(lines, sheet));
    output::reply(to, reply.number, reply.value)?;
    output::bytes(to, sheet)
}
