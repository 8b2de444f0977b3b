// The rule that a word obeys.
ghost use Rattle.rules.specs.Rows.{Rows};
ghost use Rattle.groups.specs.Picks.{FirstFit, ChosenBy, ChosenPaired};

use crate::row::Row;

// The first rule, from a number up to another, whose ending ends the word. A table without these rows has none.
pub(crate) fn fitting<'a>(word: &[u8], from: usize, to: usize, rules: &'a [u8]) -> Option<Row<'a>>
    ensures { Rows rules.now to → FirstFit rules.now from to word.now result }
{
    if rules.len() / 16 < to {
        return None;
    }
    for rule in from..to {
        let row = Row { rules, rule };
        if row.fits(word) {
            return Some(row);
        }
    }
    None
}

// The rule that a word obeys of a group in which the first that ends it decides.
pub(crate) fn chosen<'a>(
    word: &[u8],
    states: &[u8],
    from: usize,
    to: usize,
    rules: &'a [u8],
) -> Option<Row<'a>>
    ensures { ChosenBy rules.now from to word.now states.now result }
{
    let Some(row) = fitting(word, from, to, rules) else {
        return None;
    };
    if row.allowed(word, states) {
        Some(row)
    } else {
        None
    }
}

// The same of a group whose last two rules have one ending, which ends the word: of these the first that holds is obeyed.
pub(crate) fn chosen_pair<'a>(
    word: &[u8],
    states: &[u8],
    to: usize,
    rules: &'a [u8],
) -> Option<Row<'a>>
    ensures { ChosenPaired rules.now to word.now states.now result }
{
    if (to < 2) | (rules.len() / 16 < to) {
        return None;
    }
    let pair = to - 2;
    if let Some(row) = fitting(word, 0, pair, rules) {
        return Some(row);
    }
    let first = Row { rules, rule: pair };
    if first.allowed(word, states) {
        return Some(first);
    }
    let second = Row {
        rules,
        rule: pair + 1,
    };
    if second.allowed(word, states) {
        Some(second)
    } else {
        None
    }
}
