// What the rule that a word obeys leaves of it; a word that obeys none stays.
ghost use Rattle.std.specs.Prelude.{◌≡◌, ◌≤◌, length};
ghost use Rattle.groups.specs.Picks.{left_at, opened_at, Obeys};

use crate::Left;
use crate::row::Row;

// What is left of a word by a rule that only cuts.
pub(crate) fn left_by(word: &[u8], row: Option<Row>) -> Left
    ensures len_value { result.len ≡ left_at row.entry (length word.now) }
    ensures opened_value { result.opened ≡ opened_at row.entry }
{
    match row {
        Some(row) => Left {
            len: row.cut(word.len()),
            opened: row.opens(),
        },
        None => Left {
            len: word.len(),
            opened: false,
        },
    }
}

// Obeys a rule in the place of a word of so many letters: writes its replacement in the place of its ending, notes the states of what
// was written, and returns how many letters stand there then.
pub(crate) fn obey_by(word: &mut [u8], states: &mut [u8], len: usize, row: Option<Row>) -> usize
    requires { len ≤ length word.old }
    ensures { Obeys row.entry word.old states.old len word.new states.new result }
{
    let Some(row) = row else {
        return len;
    };
    let left = row.cut(len);
    if row.single() {
        return left;
    }
    if word.len() < left {
        return len;
    }
    let part = len.saturating_sub(row.size());
    places::put(word, part, row.written());
    letters::renew(&word[..left], states, part);
    left
}
