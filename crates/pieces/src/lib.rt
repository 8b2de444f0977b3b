// What a word of a text is: its letters, where the next one starts and ends, and the next one as a part of the caller's own
// text; and the letter test of a word, a to z. Document 01, "The text run", decides; `specs/` writes it down.
#![tactic(auto)]

ghost use Rattle.std.specs.Prelude.{◌≡◌, drop};
ghost use Rattle.paper.specs.Words.{all_small, first_other};
ghost use Rattle.pieces.specs.Pieces.{is_letter, leading};
ghost use Rattle.pieces.specs.Next.{next_word_at, word_end, NextWord};

// Whether words are made of this byte: A to Z and a to z.
fn is_letter(byte: u8) -> bool
    ensures { result ≡ is_letter byte }
{
    byte.is_ascii_alphabetic()
}

// The place of the first byte outside a to z, or the word's length where there is none.
pub fn first_other(word: &[u8]) -> usize
    ensures { result ≡ first_other word.now }
{
    let other = word.iter().position(|byte| !byte.is_ascii_lowercase());
    other.unwrap_or(word.len())
}

// The offset of the next word, searched from a place as if the text began there; the text's length where none follows.
pub fn next_word_at(text: &[u8], from: usize) -> usize
    ensures { result ≡ next_word_at text.now from }
{
    for at in from..text.len() {
        if is_letter(text[at]) {
            return at;
        }
    }
    text.len()
}

// The end of the letters that stand from a place on, and whether all of them are small.
#[derive(Clone, Copy)]
pub struct Run {
    pub end: usize,
    pub small: bool,
}

// Both are found in one pass, so that who makes capitals small need not look for them again.
pub fn word_run(text: &[u8], from: usize) -> Run
    ensures end_value { result.end ≡ word_end text.now from }
    ensures small_value { result.small ≡ all_small (leading (drop from text.now)) }
{
    let mut small = true;
    for end in from..text.len() {
        let byte = text[end];
        if !is_letter(byte) {
            return Run { end, small };
        }
        small &= b'a' <= byte;
    }
    Run {
        end: from.max(text.len()),
        small,
    }
}

// The next word, as a part of the caller's own text; empty where none follows.
pub fn next_word(text: &[u8], from: usize) -> &[u8]
    ensures { NextWord text.entry from result }
{
    let start = next_word_at(text, from);
    let end = word_run(text, start).end;
    &text[start..end]
}
