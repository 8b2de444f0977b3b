// A run on a word: what is said of the word before, the walk, and what is left in the word's place.
ghost use Rattle.paper.specs.Words.{word_outcome, Gives};
ghost use Rattle.answers.specs.Answers.{number_of, value_of};
ghost use Rattle.paths.specs.Children.{nodes_in};
ghost use Rattle.walks.specs.Walk.{walk_word};
ghost use Rattle.sheets.specs.Accepted.{groups_of};

use crate::runs::walk_groups;
use answers::WordRefusal;
use sheets::AcceptedSheet;

// A run on a word, whose table is known to be the sheet's: "1, 2, 4 for a word".
pub(crate) fn word_run(
    sheet: AcceptedSheet<'_>,
    table: &[u16],
    word: &mut [u8],
) -> Result<usize, WordRefusal>
    ensures { Gives
        (word_outcome (walk_word (nodes_in table.now) (groups_of sheet.entry.bytes.now)) word.old)
        (number_of result) (value_of result) word.new }
{
    answers::judge(&word[..])?;
    let size = word.len();
    let mut saved = [0u8; 64];
    saved[..size].copy_from_slice(word);
    let Some(left) = walk_groups(sheet, table, word) else {
        word.copy_from_slice(&saved[..size]);
        return Err(WordRefusal::Outgrown);
    };
    places::fill(word, left);
    Ok(left)
}
