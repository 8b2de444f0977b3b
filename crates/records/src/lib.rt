// One record of a sheet, judged by itself, and the reader that draws it. Any bytes may be given.
#![tactic(auto)]

ghost use Rattle.std.specs.Prelude.{◌≡◌, ◌+◌, ◌<◌, length};
ghost use Rattle.records.specs.RecordAnswers.{record_at, group_record};

pub mod framing;
pub mod reader;
pub mod rules;

use framing::{Frame, faulty_end, frame_at};
use numbers::pair;
use rules::rule_in;

// What the record of a rule holds, with places in the sheet: S1 stands from `start` to `middle`, S2 from there to `next`, where
// the next record starts.
#[derive(Clone, Copy)]
pub struct RuleRecord {
    pub condition: u8,
    pub action: u8,
    pub opens: u8,
    pub start: usize,
    pub middle: usize,
    pub next: usize,
}

// What a record holds.
#[derive(Clone, Copy)]
pub enum Record {
    Group { gate: usize, next: usize },
    Rule(RuleRecord),
    End,
}

// A group's record, whose body starts at this place. None where it is faulty.
fn group_in(body: &[u8], place: usize) -> Option<Record>
    requires { place + length body.now < 18446744073709551616 }
    ensures { result ≡ group_record place body.now }
{
    let [low, high] = *body else {
        return None;
    };
    let gate = pair(low, high);
    if gate > 1 {
        return None;
    }
    let next = place + body.len();
    Some(Record::Group { gate, next })
}

// The record that starts at this place of the sheet. None where it is faulty.
pub fn record_at(sheet: &[u8], at: usize) -> Option<Record>
    ensures { result ≡ record_at sheet.now at }
{
    let Frame { kind, body, next } = frame_at(sheet, at)?;
    match kind {
        1 => group_in(&sheet[body..next], body),
        2 => rule_in(&sheet[body..next], body),
        3 if !faulty_end(sheet, body, next) => Some(Record::End),
        _ => None,
    }
}
