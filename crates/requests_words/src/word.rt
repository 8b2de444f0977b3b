// Request 1, a word: the number returned, the value, and the word's place afterwards.
use requests::{input, output};
use std::io;
use std::io::{Read, Write};

// Reads the word, answers, and says whether the request was whole. A word may have 4,096 bytes.
pub fn answered(from: &mut impl Read, to: &mut impl Write) -> io::Result<bool> {
    let mut space = [0u8; 4096];
    let Ok(length) = input::read(from, &mut space)? else {
        return Ok(false);
    };
    answer(to, &mut space[..length])?;
    Ok(true)
}

fn answer(to: &mut impl Write, word: &mut [u8]) -> io::Result<()> {
    let reply = answers::in_numbers(words::stem(word));
    output::reply(to, reply.number, reply.value)?;
    output::bytes(to, word)
}
