// The text run: every word of a text is rewritten where it stands. Document 01, "The text run", decides; `specs/` writes it
// down.
#![tactic(auto)]

ghost use Rattle.std.specs.Prelude.{◌≡◌, ◌≤◌, true, map, length};
ghost use Rattle.paper.specs.Shipped.{shipped};
ghost use Rattle.paper.specs.Words.{all_small, stem};
ghost use Rattle.pieces.specs.Pieces.{lowered};
ghost use Rattle.pieces.specs.LongestRuns.{all_letters, IsWord};
ghost use Rattle.texts.specs.Texts.{of_word, stemmed_to, text_outcome};
ghost use Rattle.texts.specs.TextAnswers.{Answered, AnsweredListed};
ghost use Rattle.texts.specs.ListedTexts.{rule_with, listed_text};

use answers::{Counts, ListedRefusal, TooLong};

// The letters of a word made small, where they stand.
fn make_small(word: &mut [u8])
    requires { all_letters word.old ≡ true }
    ensures { word.new ≡ map lowered word.old }
{
    for byte in word.iter_mut() {
        *byte |= 32;
    }
}

// A word of 1 to 64 letters, made small, looked up and stemmed in its own place. The list was judged before. Who found the word says
// whether its letters are small already.
fn stem_word(list: &[u8], word: &mut [u8], small: bool)
    requires word { IsWord word.old }
    requires word_len_bound { length word.old ≤ 64 }
    requires small_value { small ≡ all_small word.old }
    ensures { of_word (rule_with list.now) word.old ≡ stemmed_to word.new }
{
    if !small {
        make_small(word);
    }
    // without a list nothing is looked up: the calls on the way to that would take 1 to 2 % of a text's time
    if list.is_empty() {
        let _ = words::stem(word);
        return;
    }
    let _ = exceptions::stem_by(list, word);
}

// The words of a text, each rewritten where it stands, by lending only that part of the text; with a list that was judged before, or
// no bytes for no list.
fn rewrite(list: &[u8], text: &mut [u8]) -> Result<Counts, TooLong>
    ensures { Answered (text_outcome (rule_with list.now) text.old) result text.new }
{
    if 65536 < text.len() {
        return Err(TooLong);
    }
    let mut stemmed = 0;
    let mut left = 0;
    let mut at = 0;
    // no iterator over the words: each is lent to be written while the text is searched on behind it
    while at < text.len() {
        let start = pieces::next_word_at(&text[..], at);
        let next = pieces::word_run(&text[..], start);
        let end = next.end;
        if 64 < end - start {
            left += 1;
        } else if start < end {
            stem_word(list, &mut text[start..end], next.small);
            stemmed += 1;
        }
        at = end;
    }
    Ok(Counts { stemmed, left })
}

// The text run.
pub fn run(text: &mut [u8]) -> Result<Counts, TooLong>
    ensures { Answered (text_outcome (stem shipped) text.old) result text.new }
{
    rewrite(&[], text)
}

// The text run with an exception list, which is judged once: 10 comes before 5.
pub fn run_listed(list: &[u8], text: &mut [u8]) -> Result<Counts, ListedRefusal<TooLong>>
    ensures { AnsweredListed (listed_text (stem shipped) list.now text.old) result text.new }
{
    lists::check(list)?;
    rewrite(list, text).map_err(ListedRefusal::Call)
}
