// Request 2, a text: the number returned, the words stemmed, the words left, and the text afterwards. Request 3, a text and a
// place: the offset and the length of the next word from there.
use crate::spaces;
use requests::{input, output};
use std::io;
use std::io::{Read, Write};

// Reads the text, answers, and says whether the request was whole. A text may have 70,000 bytes.
pub fn answered_run(from: &mut impl Read, to: &mut impl Write) -> io::Result<bool> {
    let mut space = spaces::of_text();
    let Ok(length) = input::read(from, &mut space)? else {
        return Ok(false);
    };
    answer_run(to, &mut space[..length])?;
    Ok(true)
}

fn answer_run(to: &mut impl Write, text: &mut [u8]) -> io::Result<()> {
    let reply = answers::text_in_numbers(texts::run(text));
    output::reply(to, reply.number, reply.stemmed)?;
    output::number(to, reply.left)?;
    output::bytes(to, text)
}

pub fn answered_next(from: &mut impl Read, to: &mut impl Write) -> io::Result<bool> {
    let mut space = spaces::of_text();
    let text = input::read(from, &mut space)?;
    let place = input::read_number(from)?;
    let (Ok(length), Some(place)) = (text, place) else {
        return Ok(false);
    };
    output::number(to, pieces::next_word_at(&space[..length], place))?;
    let word = pieces::next_word(&space[..length], place);
    output::number(to, word.len())?;
    Ok(true)
}
