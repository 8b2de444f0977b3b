// The records of a sheet that was accepted, read again: by their frames alone, and judged no more. Any bytes may be given.
#![tactic(auto)]

ghost use Rattle.std.specs.Prelude.{◌≡◌, ◌+◌, ◌<◌, length};
ghost use Rattle.passing.specs.Passed.{passed_group, passed_at};

use numbers::pair;
use records::framing::{Frame, frame_at};
use records::{Record, RuleRecord};

// A group's record, whose body starts at this place. None where the body ends before its gate.
fn passed_group(body: &[u8], place: usize) -> Option<Record>
    requires { place + length body.now < 18446744073709551616 }
    ensures { result ≡ passed_group place body.now }
{
    let [low, high, ..] = *body else {
        return None;
    };
    let gate = pair(low, high);
    let next = place + body.len();
    Some(Record::Group { gate, next })
}

// The record that starts at this place of the sheet. None where it is cut, or of another kind.
pub fn pass(sheet: &[u8], at: usize) -> Option<Record>
    ensures { result ≡ passed_at sheet.now at }
{
    let Frame { kind, body, next } = frame_at(sheet, at)?;
    match kind {
        1 => passed_group(&sheet[body..next], body),
        2 => RuleRecord::read(&sheet[body..next], body).map(Record::Rule),
        3 => Some(Record::End),
        _ => None,
    }
}
