// The check of a supplier's vocabulary: lines of a word and its stem. Document 02, W-207, decides; `specs/Vocabularies.antt` writes it
// down.
#![tactic(auto)]

ghost use Rattle.std.specs.Prelude.{◌≡◌, length};
ghost use Rattle.paper.specs.Words.{judged, taken};
ghost use Rattle.answers.specs.Answers.{says_vocabulary};
ghost use Rattle.vocabularies.specs.Vocabularies.{pair, wrong, Checks};
ghost use Rattle.vocabularies.specs.Reading.{letters_before, found_in};
ghost use Rattle.vocabularies.specs.StemLaws.{noted_after};

use answers::MisformedLine;

// The most letters that a word or a stem has.
const MOST: usize = 64;

// How many small letters bytes begin with, where there are no more than that and this byte stands behind them.
fn letters_before(close: u8, rest: &[u8]) -> Option<usize>
    ensures { result ≡ letters_before close rest.now }
{
    let count = pieces::first_other(rest);
    if count <= MOST && count < rest.len() && rest[count] == close {
        return Some(count);
    }
    None
}

// How many letters the word of a line has, and how many its stem.
#[derive(Clone, Copy)]
pub struct Lengths {
    pub word: usize,
    pub stem: usize,
}

// The line with which bytes begin.
fn line(rest: &[u8]) -> Option<Lengths>
    ensures { result ≡ found_in rest.now }
{
    let word = letters_before(b' ', rest)?;
    if word == 0 {
        return None;
    }
    let stem = letters_before(b'\n', &rest[word + 1..])?;
    Some(Lengths { word, stem })
}

// Whether the stem given for a word is another than its own, which is written in a place as long as the word.
fn differs(place: &mut [u8], word: &[u8], stem: &[u8]) -> bool
    requires place_len { length place.old ≡ length word.now }
    requires word_value { judged word.now ≡ taken }
    ensures { result ≡ wrong (pair word.now stem.now) }
{
    place.copy_from_slice(word);
    match words::stem(place) {
        Ok(length) => &place[..length] != stem,
        Err(_) => true,
    }
}

// The number of the first wrong line, if any, after a line more, which has this number. Behind a wrong line no stem is asked for.
fn noted(first: Option<usize>, number: usize, word: &[u8], stem: &[u8]) -> Option<usize>
    requires { judged word.now ≡ taken }
    ensures { result ≡ noted_after first number (pair word.now stem.now) }
{
    if first.is_some() {
        return first;
    }
    let mut space = [0u8; MOST];
    differs(&mut space[..word.len()], word, stem).then_some(number)
}

// One way through the lines. A wrong line is noted, and those behind it are judged by their form: 11 comes before any stem.
pub fn check(list: &[u8]) -> Result<usize, MisformedLine>
    ensures { Checks list.now (says_vocabulary result) }
{
    let mut rest = list;
    let mut number = 1;
    let mut first_wrong = None;
    while !rest.is_empty() {
        let found = line(rest).ok_or(MisformedLine { line: number })?;
        let end = found.word + 1 + found.stem;
        first_wrong = noted(
            first_wrong,
            number,
            &rest[..found.word],
            &rest[found.word + 1..end],
        );
        rest = &rest[end + 1..];
        number += 1;
    }
    Ok(first_wrong.unwrap_or(0))
}
