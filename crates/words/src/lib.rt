// The word stemmer: what is said of a word before it is read, the short words that stay, the shipped rules read in the place of the
// others, and the spaces behind the stem.
#![tactic(auto)]

ghost use Rattle.paper.specs.Groups.{done};
ghost use Rattle.paper.specs.Words.{word_outcome, outcome, Gives};
ghost use Rattle.answers.specs.Answers.{number_of, value_of};

use answers::WordRefusal;

// A word that is its own stem, whatever the rules: it is judged as every word is.
fn stay(word: &[u8]) -> Result<usize, WordRefusal>
    ensures { Gives (word_outcome done word.now) (number_of result) (value_of result) word.now }
{
    answers::judge(word)?;
    Ok(word.len())
}

// The stem of a word, in its own place: afterwards it stands first and spaces fill the rest, or the word is as it came.
pub fn stem(word: &mut [u8]) -> Result<usize, WordRefusal>
    ensures { Gives (outcome word.old) (number_of result) (value_of result) word.new }
{
    // W-201: words of one or two letters stay as they are
    if word.len() <= 2 {
        return stay(&word[..]);
    }
    let read = readings::read(word);
    answers::judge_by(word.len(), read.other)?;
    places::fill(word, read.len);
    Ok(read.len)
}
