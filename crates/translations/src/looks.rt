// Looking through the rules of a group for a tail: the first rule whose ending it is, and the letters that stand before it.
ghost use Rattle.std.specs.Prelude.{◌≡◌, cond, List, ◌<◌, eqb, length, replicate};
ghost use Rattle.paper.specs.Groups.{Rule, same};
ghost use Rattle.translations.specs.Looking.{Noted, Reads, SomeRules, Looked};

use crate::rows::put;
use letters::ends_with;
use passing::pass;
use paths::number_at;
use records::Record;

// The rule so far, or else this one, if its ending is the tail. 0 for none.
fn first_with(rule: usize, number: usize, ending: &[u8], tail: &[u8]) -> usize
    ensures { result ≡ cond (eqb rule 0) (cond (same ending.now tail.now) number 0) rule }
{
    if rule != 0 {
        return rule;
    }
    if ending.len() != tail.len() {
        return 0;
    }
    if ends_with(ending, tail) { number } else { 0 }
}

// Notes where an ending ends that has a letter before the tail, at this letter, if nothing is noted there yet.
fn note(ending: &[u8], end: usize, tail: &[u8], ends: &mut [u16])
    requires { end < 65536 }
    ensures { Noted ending.now end tail.now ends.old ends.new }
{
    let long = tail.len();
    if ending.len() <= long {
        return;
    }
    if !ends_with(ending, tail) {
        return;
    }
    let letter = usize::from(ending[ending.len() - long - 1]);
    if letter < 97 {
        return;
    }
    let place = letter - 97;
    if number_at(&ends[..], place) == 0 {
        put(ends, place, end);
    }
}

// Looks through the rules that stand from a place on up to the next group, of which so many stand before. Returns the first rule whose
// ending is the tail, 0 for none, and notes for each letter where an ending ends that has it before the tail.
pub(crate) fn look(sheet: &[u8], from: usize, before: usize, tail: &[u8], ends: &mut [u16]) -> usize
    requires { SomeRules sheet.now from before
        × ((length sheet.now < 65536) × (ends.old ≡ replicate 26 0)) }
    ensures looked { (list : List Rule) → Reads sheet.now from before list
        → Looked sheet.now before list tail.now result ends.new }
    ensures upper_bound { result < 65536 }
{
    let mut at = from;
    let mut number = before;
    let mut rule = 0;
    while let Some(record) = pass(sheet, at) {
        match record {
            Record::Rule(found) => {
                let ending = &sheet[found.start..found.middle];
                number += 1;
                rule = first_with(rule, number, ending, tail);
                note(ending, found.middle, tail, ends);
                at = found.next;
            }
            Record::Group { gate: _, next: _ } => return rule,
            Record::End => return rule,
        }
    }
    rule
}
