// A sheet made from lines written as in the paper. Document 02, W-202, decides; `specs/Makes.antt` writes it down.
#![tactic(auto)]

ghost use Rattle.std.specs.Prelude.{◌≡◌, ◌+◌, ◌≤◌, ◌<◌, ◌^◌, false, [], length};
ghost use Rattle.records.specs.Framing.{record_of};
ghost use Rattle.records.specs.RecordBytes.{gate_body, rule_body};
ghost use Rattle.records.specs.Records.{faulty_rule};
ghost use Rattle.places.specs.Written.{Appends};
ghost use Rattle.paper.specs.Groups.{gate_of};
ghost use Rattle.lines.specs.Reading.{rule_of};
ghost use Rattle.lines.specs.ReadingLaws.{RuleHere};
ghost use Rattle.answers.specs.Answers.{number_of_made, value_of_made};
ghost use Rattle.answers.specs.declared.MakingRefusal.TheVariants.{Line};
ghost use Rattle.imports.specs.Makes.{MakesTo};
ghost use Rattle.imports.specs.Passing.{PassedTo};

use answers::MakingRefusal;
use lines::{LineRead, RuleLine, line};
use places::put;
use sheets::{misplaced_group, misplaced_rule};

// The body of the rule's record is faulty: its condition and its letters are those of a line, so only lengths and a single letter can be.
fn faulty_body(rest: &[u8], rule: RuleLine) -> bool
    requires { RuleHere rest.now rule }
    ensures { result ≡ faulty_rule (rule_body (rule_of rest.now rule)) }
{
    let ending = rule.middle - rule.start;
    let replacement = rule.end - rule.from;
    let unfit = bounds::faulty_action(rule.condition, rule.action, ending, replacement);
    (12 < ending) | (12 < replacement) | unfit
}

// Puts the record of a group's line at a place of the sheet, if it fits there, and returns the place behind it.
fn put_group(sheet: &mut [u8], at: usize, gate: usize) -> usize
    requires { (at < 2 ^ 32) × (gate ≤ 1) }
    ensures appends { Appends at (record_of 1 (gate_body (gate_of gate))) sheet.old sheet.new }
    ensures value { result ≡ at + length (record_of 1 (gate_body (gate_of gate))) }
{
    let record = [2, 0, 1, 0, gate as u8, 0];
    put(sheet, at, &record);
    at + 6
}

// The same for the record of the rule's line with which these bytes begin.
fn put_rule(sheet: &mut [u8], at: usize, rest: &[u8], rule: RuleLine) -> usize
    requires { (at < 2 ^ 32) × (RuleHere rest.now rule × (faulty_rule (rule_body (rule_of rest.now rule)) ≡ false)) }
    ensures appends { Appends at (record_of 2 (rule_body (rule_of rest.now rule))) sheet.old sheet.new }
    ensures value { result ≡ at + length (record_of 2 (rule_body (rule_of rest.now rule))) }
{
    let start = rule.start;
    let middle = rule.middle;
    let from = rule.from;
    let end = rule.end;
    let ending = middle - start;
    let size = 4 + ending + (end - from);
    let head = [
        size as u8,
        0,
        2,
        0,
        rule.condition,
        rule.action,
        rule.opens,
        ending as u8,
    ];
    put(sheet, at, &head);
    put(sheet, at + 8, &rest[start..middle]);
    put(sheet, at + 8 + ending, &rest[from..end]);
    at + 4 + size
}

// The same for the end record.
fn put_end(sheet: &mut [u8], at: usize) -> usize
    requires { at < 2 ^ 32 }
    ensures appends { Appends at (record_of 3 []) sheet.old sheet.new }
    ensures value { result ≡ at + length (record_of 3 []) }
{
    put(sheet, at, b"\0\0\x03\0");
    at + 4
}

// The number of the first line that is not of the form or whose record is faulty.
#[derive(Clone, Copy)]
struct FaultyLine {
    number: usize,
}

impl From<FaultyLine> for MakingRefusal {
    ghost from_gives = { λ fault refusal. refusal ≡ Line fault.number };

    fn from(fault: FaultyLine) -> MakingRefusal {
        MakingRefusal::Line(fault.number)
    }
}

// One way through the lines, each of which is judged and its record put behind those before it, if it fits: how many bytes their sheet
// has. Every line that was passed is a group's or a rule's, so their counts give the number of the next.
fn pass(text: &[u8], sheet: &mut [u8]) -> Result<usize, FaultyLine>
    ensures { PassedTo text.now sheet.old result sheet.new }
{
    let mut at = 0;
    let mut groups = 0;
    let mut rules = 0;
    let mut size = 0;
    // not `while let`: that no line is read is a fault before the end of the text, and none at it
    while at < text.len() {
        let rest = &text[at..];
        let fault = FaultyLine {
            number: groups + rules + 1,
        };
        let Some(read) = line(rest) else {
            return Err(fault);
        };
        match read {
            LineRead::Group { gate, taken } => {
                if misplaced_group(groups, gate) {
                    return Err(fault);
                }
                size = put_group(sheet, size, gate);
                groups += 1;
                at += taken;
            }
            LineRead::Rule(rule) => {
                if misplaced_rule(groups, rules) | faulty_body(rest, rule) {
                    return Err(fault);
                }
                size = put_rule(sheet, size, rest, rule);
                rules += 1;
                at += rule.taken;
            }
        }
    }
    Ok(put_end(sheet, size))
}

// Makes the sheet that the lines of a text name, and says how long it is. They are passed twice: first no byte is lent, so that a text
// which is refused changes none and the length is known.
pub fn make(text: &[u8], sheet: &mut [u8]) -> Result<usize, MakingRefusal>
    ensures { MakesTo text.now sheet.old (number_of_made result) (value_of_made result) sheet.new }
{
    let size = pass(text, &mut sheet[..0])?;
    if sheet.len() < size {
        return Err(MakingRefusal::Short);
    }
    pass(text, sheet)?;
    Ok(size)
}
