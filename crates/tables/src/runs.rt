// The run of a table on a word, group by group.
ghost use Rattle.std.specs.Prelude.{◌≡◌, ◌+◌, ◌≤◌, length, take, MatchOption};
ghost use Rattle.sheets.specs.Accepted.{groups_of};
ghost use Rattle.sheets.specs.Sheets.{rest_at};
ghost use Rattle.paths.specs.Children.{nodes_in};
ghost use Rattle.walks.specs.Walk.{walk_group, walk_word};
ghost use Rattle.tables.specs.WalkAnswers.{WalkedAs};
ghost use Rattle.tables.specs.GroupStepLaws.{Outgrows, Stepped};
ghost use Rattle.tables.specs.TryLaws.{Readable, PickedAs, picked, rules_of, obeys as obeys_of};

use passing::pass;
use paths::{deepest, held_at};
use records::{Record, RuleRecord};
use sheets::AcceptedSheet;

// What a group leaves: the letters that stand first in the word's place, and whether the next group is opened.
#[derive(Clone, Copy)]
struct Step {
    size: usize,
    opened: bool,
}

// A group of a sheet that was accepted, and the table through which it is walked. Its rules stand from `at` on, behind so many rules
// of other groups, and its root is the node of its own number.
#[derive(Clone, Copy)]
struct Group<'a> {
    sheet: &'a [u8],
    at: usize,
    rules: usize,
    table: &'a [u16],
    root: usize,
    ghost readable: { Readable sheet.now at (root + 1) rules },
}

impl<'a> Group<'a> {
    // Whether the rule of this number, condition and ending is the one that a walk which found `found` obeys.
    fn obeys(&self, found: usize, number: usize, condition: u8, ending: &[u8], word: &[u8]) -> bool
        ensures { result ≡ obeys_of (nodes_in self.now.table.now) self.now.root found word.now number condition
            ending.now }
    {
        let part = word.len().saturating_sub(ending.len());
        found <= number
            && found == held_at(self.table, self.root, ending)
            && letters::holds(condition, &word[..part])
    }

    // The rule that a walk which found `found` obeys, of those of the group.
    fn pick(&self, found: usize, word: &[u8]) -> Option<RuleRecord>
        ensures { PickedAs self.now.sheet.now
            (picked (nodes_in self.now.table.now) self.now.root found word.now (self.now.rules + 1)
            (rules_of (rest_at self.now.sheet.now self.now.at (self.now.root + 1) self.now.rules)))
            result }
    {
        let mut place = self.at;
        let mut number = self.rules;
        while let Some(record) = pass(self.sheet, place) {
            let Record::Rule(rule) = record else {
                return None;
            };
            number += 1;
            let ending = &self.sheet[rule.start..rule.middle];
            if self.obeys(found, number, rule.condition, ending, word) {
                return Some(rule);
            }
            place = rule.next;
        }
        None
    }

    // Walks the group on the first `size` letters of the word. None where the result does not fit the word's place.
    fn walk(&self, word: &mut [u8], size: usize) -> Option<Step>
        requires { size ≤ length word.old }
        ensures { let step = walk_group (nodes_in self.now.table.now) self.now.root (self.now.rules + 1) (take size word.old)
            (rules_of (rest_at self.now.sheet.now self.now.at (self.now.root + 1) self.now.rules)) in
            MatchOption result (Outgrows step (length word.old))
            (λ left. Stepped step (length word.old) word.new left.size left.opened) }
    {
        let unchanged = Step {
            size,
            opened: false,
        };
        let found = deepest(self.table, self.root, &word[..size]);
        if found == 0 {
            return Some(unchanged);
        }
        let Some(rule) = self.pick(found, &word[..size]) else {
            return Some(unchanged);
        };
        let part = size.saturating_sub(rule.middle - rule.start);
        let opened = rule.opens == 1;
        if rule.action != 0 {
            let size = part.saturating_sub(1);
            return Some(Step { size, opened });
        }
        let added = rule.next - rule.middle;
        if word.len() - part < added {
            return None;
        }
        places::put(word, part, &self.sheet[rule.middle..rule.next]);
        let size = part + added;
        Some(Step { size, opened })
    }
}

// Walks all groups of a sheet on a word, in its own place: so many letters are left, which stand first there. None where a group's
// result does not fit the place.
pub(crate) fn walk_groups(sheet: AcceptedSheet<'_>, table: &[u16], word: &mut [u8]) -> Option<usize>
    ensures { WalkedAs (walk_word (nodes_in table.now) (groups_of sheet.entry.bytes.now) word.old)
        result word.new }
{
    let bytes = sheet.bytes;
    let mut at = 0;
    let mut groups = 0;
    let mut rules = 0;
    let mut opened = false;
    let mut size = word.len();
    while let Some(record) = pass(bytes, at) {
        match record {
            Record::Group { gate, next } => {
                let root = groups;
                groups += 1;
                at = next;
                // A group that is not run was not opened, and opens none.
                if (gate == 0) | opened {
                    let group = Group {
                        sheet: bytes,
                        at,
                        rules,
                        table,
                        root,
                    };
                    let step = group.walk(word, size)?;
                    size = step.size;
                    opened = step.opened;
                }
            }
            Record::Rule(rule) => {
                rules += 1;
                at = rule.next;
            }
            Record::End => return Some(size),
        }
    }
    None
}
