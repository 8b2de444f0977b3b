// The shipped rules read group by group in the word's own place, from constant tables. The states of the word are noted beside it, so
// that a condition is a look; a step whose rules only cut takes word and states as they are.
#![tactic(auto)]

ghost use Rattle.std.specs.Prelude.{◌≡◌, ◌≤◌, true, length, take};
ghost use Rattle.paper.specs.Shipped.{group_1a, group_1b, follow_up, group_1c, group_2, group_5a, group_5b};
ghost use Rattle.paper.specs.Words.{taken, judged, first_other};
ghost use Rattle.paper.specs.ReadingLaws.{every};
ghost use Rattle.rules.specs.Shipped.{rules_of};
ghost use Rattle.blocks.specs.Indexes.{group_of};
ghost use Rattle.groups.specs.Reads.{cuts, leaves, Cut, CutOpens, Stands, Written};
ghost use Rattle.readings.specs.Steps.{Compared, WrittenOpened, leaves_opened, leaves_last, ReadStands};

mod noted;

use blocks::{Block, Index};
use conditions::letter_at;
use groups::{Left, cut_by, cut_free, cut_pair, write_by, write_pair};
use noted::NotedWord;
use rules::{Group, table};

// Its rules have no condition, so that no state is asked for.
fn step_1a(word: &[u8]) -> usize
    ensures { Cut group_1a word.now result }
{
    if letter_at(word, 0) != b's' {
        return word.len();
    }
    let rules = table(Group::Step1a);
    cut_free(word, 4, rules)
}

fn cut_1b(word: NotedWord<'_>) -> Left
    ensures { CutOpens group_1b word.entry.letters.now result.len result.opened }
{
    let last = letter_at(word.letters, 0);
    if (last == b'd') | (last == b'g') {
        let rules = table(Group::Step1b);
        return cut_by(word.letters, word.states, 0, 3, rules);
    }
    Left {
        len: word.letters.len(),
        opened: false,
    }
}

// The group that ed and ing open. The empty ending of its last two rules ends every word.
fn follow(word: &mut [u8], states: &mut [u8], len: usize) -> usize
    requires stands { Stands word.old states.old len }
    requires word_in_bounds { length (leaves follow_up (take len word.old)) ≤ length word.old }
    ensures { Written follow_up (take len word.old) word.new states.new result }
{
    let rules = table(Group::FollowUp);
    write_pair(word, states, len, 5, rules)
}

fn step_1b(word: &mut [u8], states: &mut [u8], len: usize) -> usize
    requires stands { Stands word.old states.old len }
    requires word_in_bounds { length (leaves_opened group_1b follow_up (take len word.old)) ≤ length word.old }
    ensures { WrittenOpened group_1b follow_up (take len word.old) word.new states.new result }
{
    let left = cut_1b(NotedWord {
        letters: &word[..len],
        states: &states[..],
    });
    if left.opened {
        return follow(word, states, left.len);
    }
    left.len
}

fn step_1c(word: &mut [u8], states: &mut [u8], len: usize) -> usize
    requires stands { Stands word.old states.old len }
    requires word_in_bounds { length (leaves group_1c (take len word.old)) ≤ length word.old }
    ensures { Written group_1c (take len word.old) word.new states.new result }
{
    if letter_at(&word[..len], 0) != b'y' {
        return len;
    }
    let rules = table(Group::Step1c);
    write_by(word, states, len, 0, 1, rules)
}

// Which rules of a group with an index can end a word. Without a block the word obeys none.
fn block_of(index: Index, word: &[u8]) -> Option<Block>
    ensures { Compared (group_of index) word.now result }
{
    if word.len() < 3 {
        return None;
    }
    let block = index.block(letter_at(word, 1));
    if block.keeps(word) { Some(block) } else { None }
}

fn step_2(word: &mut [u8], states: &mut [u8], len: usize) -> usize
    requires stands { Stands word.old states.old len }
    requires word_in_bounds { length (leaves group_2 (take len word.old)) ≤ length word.old }
    ensures { Written group_2 (take len word.old) word.new states.new result }
{
    let Some(block) = block_of(Index::Step2, &word[..len]) else {
        return len;
    };
    let rules = table(Group::Step2);
    write_by(word, states, len, block.from, block.to, rules)
}

// Steps 3 and 4. Inlined, so that the constants of each are in its code: as a call, a word takes a tenth longer.
#[inline(always)]
fn cut_within(index: Index, group: Group, word: NotedWord<'_>) -> usize
    requires same { rules_of group ≡ group_of index }
    requires cut { every cuts (group_of index) ≡ true }
    ensures { Cut (group_of index) word.entry.letters.now result }
{
    let Some(block) = block_of(index, word.letters) else {
        return word.letters.len();
    };
    let rules = table(group);
    cut_by(word.letters, word.states, block.from, block.to, rules).len
}

// Its two rules have the same ending.
fn step_5a(word: NotedWord<'_>) -> usize
    ensures { Cut group_5a word.entry.letters.now result }
{
    if letter_at(word.letters, 0) != b'e' {
        return word.letters.len();
    }
    let rules = table(Group::Step5a);
    cut_pair(word.letters, word.states, 2, rules)
}

fn step_5b(word: NotedWord<'_>) -> usize
    ensures { Cut group_5b word.entry.letters.now result }
{
    // the condition asks for an l
    if letter_at(word.letters, 0) != b'l' {
        return word.letters.len();
    }
    let rules = table(Group::Step5b);
    cut_by(word.letters, word.states, 0, 1, rules).len
}

// How many letters the last four groups leave, which only cut.
fn cut_last(word: NotedWord<'_>) -> usize
    ensures word_value { take result word.entry.letters.now ≡ leaves_last word.entry.letters.now }
    ensures upper_bound { result ≤ length word.entry.letters.now }
{
    let after_3 = cut_within(Index::Step3, Group::Step3, word);
    let after_4 = cut_within(Index::Step4, Group::Step4, word.front(after_3));
    let after_5a = step_5a(word.front(after_4));
    step_5b(word.front(after_5a))
}

// Reads all groups in the word's place, and returns how many letters they leave there.
fn read_by(word: &mut [u8], states: &mut [u8]) -> usize
    requires { Stands word.old states.old (length word.old) }
    ensures { ReadStands word.old word.new result }
{
    let after_1a = step_1a(&word[..]);
    let after_1b = step_1b(word, states, after_1a);
    let after_1c = step_1c(word, states, after_1b);
    let after_2 = step_2(word, states, after_1c);
    cut_last(NotedWord {
        letters: &word[..after_2],
        states: &states[..],
    })
}

// The place of the first byte outside a to z, or the word's length; and how many letters the groups leave.
#[derive(Clone, Copy)]
pub struct WordRead {
    pub other: usize,
    pub len: usize,
}

// Reads all groups in the place of a word that 01 takes; any other word stays as it is.
pub fn read(word: &mut [u8]) -> WordRead
    ensures other_value { result.other ≡ first_other word.old }
    ensures read_stands { taken ≡ judged word.old → ReadStands word.old word.new result.len }
    ensures word_unchanged { (taken ≡ judged word.old → ⊥) → word.new ≡ word.old }
{
    let mut states = [0u8; 65];
    let other = letters::note(&word[..], &mut states[..]);
    if (word.len() == 0) | ((64 < word.len()) | (other < word.len())) {
        return WordRead { other, len: 0 };
    }
    let len = read_by(word, &mut states[..]);
    WordRead { other, len }
}
