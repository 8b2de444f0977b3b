// A group read from the rows of its table, whatever group it is: which rule a word obeys, by the states noted beside it, and what that
// leaves. Every function takes any numbers; of a table that holds no such group, and of a word whose states are not noted, the
// contracts say nothing.
#![tactic(auto)]

mod choosing;
mod obeying;
mod row;

ghost use Rattle.groups.specs.Reads.{CutsBy, CutsFree, CutsPaired, WritesBy, WritesPaired};

use choosing::{chosen, chosen_pair, fitting};
use obeying::{left_by, obey_by};

// How many letters a group leaves of a word, and whether the next group is opened.
#[derive(Clone, Copy)]
pub struct Left {
    pub len: usize,
    pub opened: bool,
}

// What a group leaves whose rules only cut, and of which only those from a number up to another can end the word.
pub fn cut_by(word: &[u8], states: &[u8], from: usize, to: usize, rules: &[u8]) -> Left
    ensures { CutsBy rules.now from to word.now states.now result.len result.opened }
{
    left_by(word, chosen(word, states, from, to, rules))
}

// What a group of so many rules leaves that only cut and have no condition.
pub fn cut_free(word: &[u8], to: usize, rules: &[u8]) -> usize
    ensures { CutsFree rules.now to word.now result }
{
    left_by(word, fitting(word, 0, to, rules)).len
}

// What a group of so many rules leaves that only cut, the last two with one ending.
pub fn cut_pair(word: &[u8], states: &[u8], to: usize, rules: &[u8]) -> usize
    ensures { CutsPaired rules.now to word.now states.now result }
{
    left_by(word, chosen_pair(word, states, to, rules)).len
}

// Reads a group in the place of a word of so many letters, and returns how many stand there then. Only rules from a number up to
// another can end the word.
pub fn write_by(
    word: &mut [u8],
    states: &mut [u8],
    len: usize,
    from: usize,
    to: usize,
    rules: &[u8],
) -> usize
    ensures { WritesBy rules.now from to word.old states.old len
        word.new states.new result }
{
    if word.len() < len {
        return len;
    }
    let row = chosen(&word[..len], &states[..], from, to, rules);
    obey_by(word, states, len, row)
}

// The same of a group of so many rules, the last two with one ending.
pub fn write_pair(word: &mut [u8], states: &mut [u8], len: usize, to: usize, rules: &[u8]) -> usize
    ensures { WritesPaired rules.now to word.old states.old len
        word.new states.new result }
{
    if word.len() < len {
        return len;
    }
    let row = chosen_pair(&word[..len], &states[..], to, rules);
    obey_by(word, states, len, row)
}
