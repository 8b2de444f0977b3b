// Request 8, a list and a word: whether the word is listed, and the part that the lookup hands back. Request 9, a list and a word, and
// request 10, a list and a text: as requests 1 and 2, with a list.
ghost use Rattle.std.specs.Prelude.{IfOk, IfSome};
ghost use Rattle.std.specs.Counts.{IsPrefixLen};

use crate::spaces;
use requests::{input, output};
use std::io;
use std::io::{Read, Write};

// Reads a list and what it is for, each into the space lent for it, and says how long they are. A list may have 70,000 bytes.
fn read_both(
    from: &mut impl Read,
    list: &mut [u8],
    other: &mut [u8],
) -> io::Result<Option<(usize, usize)>>
    ensures { IfOk result (λ both. IfSome both (λ sizes. IsPrefixLen sizes.0 list.new × IsPrefixLen sizes.1 other.new)) }
{
    let Ok(size) = input::read(from, list)? else {
        return Ok(None);
    };
    let Ok(length) = input::read(from, other)? else {
        return Ok(None);
    };
    Ok(Some((size, length)))
}

// Reads the arguments, answers, and says whether the request was whole. A word may have 4,096 bytes.
pub fn answered_lookup(from: &mut impl Read, to: &mut impl Write) -> io::Result<bool> {
    let mut list = spaces::of_text();
    let mut word = [0u8; 4096];
    let Some((size, length)) = read_both(from, &mut list, &mut word)? else {
        return Ok(false);
    };
    answer_lookup(to, &list[..size], &word[..length])?;
    Ok(true)
}

fn answer_lookup(to: &mut impl Write, list: &[u8], word: &[u8]) -> io::Result<()> {
    let listed = lists::listed(list, word);
    output::byte(to, u8::from(listed))?;
    let part = lists::lookup(list, word);
    output::number(to, part.len())?;
    output::bytes(to, part)
}

pub fn answered_word(from: &mut impl Read, to: &mut impl Write) -> io::Result<bool> {
    let mut list = spaces::of_text();
    let mut word = [0u8; 4096];
    let Some((size, length)) = read_both(from, &mut list, &mut word)? else {
        return Ok(false);
    };
    answer_word(to, &list[..size], &mut word[..length])?;
    Ok(true)
}

fn answer_word(to: &mut impl Write, list: &[u8], word: &mut [u8]) -> io::Result<()> {
    let reply = answers::in_numbers(exceptions::stem(list, word));
    output::reply(to, reply.number, reply.value)?;
    output::bytes(to, word)
}

// A text may have 70,000 bytes.
pub fn answered_text(from: &mut impl Read, to: &mut impl Write) -> io::Result<bool> {
    let mut list = spaces::of_text();
    let mut text = spaces::of_text();
    let Some((size, length)) = read_both(from, &mut list, &mut text)? else {
        return Ok(false);
    };
    answer_text(to, &list[..size], &mut text[..length])?;
    Ok(true)
}

fn answer_text(to: &mut impl Write, list: &[u8], text: &mut [u8]) -> io::Result<()> {
    let reply = answers::text_in_numbers(texts::run_listed(list, text));
    output::reply(to, reply.number, reply.stemmed)?;
    output::number(to, reply.left)?;
    output::bytes(to, text)
}
