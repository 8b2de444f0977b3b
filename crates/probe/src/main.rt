// The test driver: answers requests on standard input, so that anyone can hold every public entry
// against another implementation. It checks nothing itself.
//
// A request is one byte and its arguments; each kind of request has a file of its own, in
// `requests_words` and `requests_sheets`. At a request that is cut short, has another first byte or
// an argument over its bound, the program writes the byte 255 and ends.
#![tactic(auto)]

use requests::{input, output};
use requests_sheets::{sheet, table, written};
use requests_words::{list, text, vocabulary, word};
use std::io;
use std::io::{Read, Write};

// Answers the request that begins with this byte, and says whether it was whole and known.
fn answered(from: &mut impl Read, to: &mut impl Write, kind: u8) -> io::Result<bool> {
    match kind {
        1 => word::answered(from, to),
        2 => text::answered_run(from, to),
        3 => text::answered_next(from, to),
        4 => sheet::answered(from, to),
        5 => table::answered_translation(from, to),
        6 => table::answered_run(from, to),
        7 => written::answered(from, to),
        8 => list::answered_lookup(from, to),
        9 => list::answered_word(from, to),
        10 => list::answered_text(from, to),
        11 => vocabulary::answered(from, to),
        _ => Ok(false),
    }
}

// Answers the next request, and says whether to go on. The answer is flushed, since who sent the
// request may wait for it before sending another.
fn went_on(from: &mut impl Read, to: &mut impl Write) -> io::Result<bool> {
    let Some(kind) = input::first_byte(from)? else {
        return Ok(false);
    };
    let is_answered = answered(from, to, kind)?;
    if !is_answered {
        output::byte(to, 255)?;
    }
    to.flush()?;
    Ok(is_answered)
}

// A proved loop has to end, and nothing says that the input does. So the requests are counted
// to a number that no run uses up.
fn main(rt: HostRuntime) -> io::Result<()> {
    let mut from = rt.stdin();
    let mut to = rt.stdout();
    for _ in 0..u64::MAX {
        if !went_on(&mut from, &mut to)? {
            break;
        }
    }
    Ok(())
}
