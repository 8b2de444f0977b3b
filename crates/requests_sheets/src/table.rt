// Request 5, a sheet and a table: the number returned, the value, and the table afterwards. Request 6, a sheet, a table and a
// word: the number returned, the value, and the word's place afterwards.
ghost use Rattle.std.specs.Prelude.{IfOk, IfSome};
ghost use Rattle.std.specs.Counts.{IsPrefixLen};

use requests::{input, output};
use std::io;
use std::io::{Read, Write};

// Reads a sheet and a table, each into the space lent for it, and says how long they are.
fn read_both(
    from: &mut impl Read,
    sheet: &mut [u8],
    table: &mut [u16],
) -> io::Result<Option<(usize, usize)>>
    ensures { IfOk result (λ both. IfSome both (λ sizes. IsPrefixLen sizes.0 sheet.new × IsPrefixLen sizes.1 table.new)) }
{
    let Ok(size) = input::read(from, sheet)? else {
        return Ok(None);
    };
    let Ok(count) = input::read_table(from, table)? else {
        return Ok(None);
    };
    Ok(Some((size, count)))
}

// Reads the arguments, answers, and says whether the request was whole. A sheet may have 16,384 bytes, a table 16,384 numbers.
pub fn answered_translation(from: &mut impl Read, to: &mut impl Write) -> io::Result<bool> {
    let mut sheet = [0u8; 16384];
    let mut table = [0u16; 16384];
    let Some((size, count)) = read_both(from, &mut sheet, &mut table)? else {
        return Ok(false);
    };
    answer_translation(to, &sheet[..size], &mut table[..count])?;
    Ok(true)
}

fn answer_translation(to: &mut impl Write, sheet: &[u8], table: &mut [u16]) -> io::Result<()> {
    let reply = answers::in_numbers(translations::translate(sheet, table));
    output::reply(to, reply.number, reply.value)?;
    output::table(to, table)
}

// A word may have 4,096 bytes.
pub fn answered_run(from: &mut impl Read, to: &mut impl Write) -> io::Result<bool> {
    let mut sheet = [0u8; 16384];
    let mut table = [0u16; 16384];
    let Some((size, count)) = read_both(from, &mut sheet, &mut table)? else {
        return Ok(false);
    };
    let mut word = [0u8; 4096];
    let Ok(length) = input::read(from, &mut word)? else {
        return Ok(false);
    };
    answer_run(to, &sheet[..size], &table[..count], &mut word[..length])?;
    Ok(true)
}

fn answer_run(to: &mut impl Write, sheet: &[u8], table: &[u16], word: &mut [u8]) -> io::Result<()> {
    let reply = answers::in_numbers(tables::run(sheet, table, word));
    output::reply(to, reply.number, reply.value)?;
    output::bytes(to, word)
}
