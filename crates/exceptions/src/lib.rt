// A word with an exception list: its listed stem, or the stem that it has without a list. Document 02, W-205, decides.
#![tactic(auto)]

ghost use Rattle.std.specs.Prelude.{◌≡◌};
ghost use Rattle.paper.specs.Shipped.{shipped};
ghost use Rattle.paper.specs.Words.{stem as stem_of};
ghost use Rattle.lists.specs.Lists.{find};
ghost use Rattle.lists.specs.Calls.{listed_outcome};
ghost use Rattle.lists.specs.Searches.{passed};
ghost use Rattle.exceptions.specs.Judged.{wrote_of, left_by, judged_outcome, Answered, AnsweredListed};

use answers::{ListedRefusal, WordRefusal};

// The stem that a list has for a word, written in the word's place with spaces behind it: of so many letters. Where the list has none,
// nothing is written. The list was judged before; any bytes may be given.
pub fn write(list: &[u8], word: &mut [u8]) -> Option<usize>
    ensures value { result ≡ wrote_of (find (passed list.now) word.old) }
    ensures word_after { word.new ≡ left_by (find (passed list.now) word.old) word.old }
{
    let stem = lists::search(list, word)?;
    places::put(word, 0, stem);
    places::fill(word, stem.len());
    Some(stem.len())
}

// A word with a list that was judged before; no bytes are no list.
pub fn stem_by(list: &[u8], word: &mut [u8]) -> Result<usize, WordRefusal>
    ensures { Answered (judged_outcome (stem_of shipped) list.now word.old) result word.new }
{
    match write(list, word) {
        Some(size) => Ok(size),
        None => words::stem(word),
    }
}

// A word with a list: 10 comes before what is said of the word.
pub fn stem(list: &[u8], word: &mut [u8]) -> Result<usize, ListedRefusal<WordRefusal>>
    ensures { AnsweredListed (listed_outcome (stem_of shipped) list.now word.old) result word.new }
{
    lists::check(list)?;
    stem_by(list, word).map_err(ListedRefusal::Call)
}
