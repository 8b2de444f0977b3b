// A line of a sheet written as in the paper, read where the rest of a text begins with it. Document 02, W-202, decides; `specs/Lines.antt`
// writes it down.
#![tactic(auto)]

mod parts;

ghost use Rattle.std.specs.Prelude.{◌≡◌, ◌≤◌, length};
ghost use Rattle.lines.specs.Reading.{found_in, after_condition, after_arrow, closed_in};

use parts::{Close, Head, read_close, read_head, read_part, starts};

// A rule's line, by places in the bytes that begin with it: its ending stands from `start` to `middle`, its replacement from `from` to
// `end`, and the next line begins at `taken`.
#[derive(Clone, Copy)]
pub struct RuleLine {
    pub condition: u8,
    pub action: u8,
    pub opens: u8,
    pub start: usize,
    pub middle: usize,
    pub from: usize,
    pub end: usize,
    pub taken: usize,
}

// The line that stands first in the rest of a text.
#[derive(Clone, Copy)]
pub enum LineRead {
    // A group's line; the next line begins at `taken`.
    Group { gate: usize, taken: usize },
    Rule(RuleLine),
}

// The rule's line, of which all but the close was read, up to `taken`.
fn closed(rest: &[u8], line: RuleLine) -> Option<LineRead>
    requires { line.taken ≤ length rest.now }
    ensures { result ≡ closed_in rest.now line }
{
    let at = line.taken;
    let whole = match read_close(&rest[at..])? {
        Close::Plain => RuleLine {
            taken: at + 1,
            ..line
        },
        Close::Opens => RuleLine {
            opens: 1,
            taken: at + 7,
            ..line
        },
    };
    Some(LineRead::Rule(whole))
}

// The rule's line, of which condition, ending and arrow were read, up to `from`.
fn replaced(
    rest: &[u8],
    condition: u8,
    start: usize,
    middle: usize,
    from: usize,
) -> Option<LineRead>
    requires { from ≤ length rest.now }
    ensures { result ≡ after_arrow rest.now condition start middle from }
{
    if starts(&rest[from..], b"single letter") {
        let line = RuleLine {
            condition,
            action: 1,
            opens: 0,
            start,
            middle,
            from,
            end: from,
            taken: from + 13,
        };
        return closed(rest, line);
    }
    let letters = read_part(&rest[from..])?;
    let line = RuleLine {
        condition,
        action: 0,
        opens: 0,
        start,
        middle,
        from,
        end: from + letters.count,
        taken: from + letters.taken,
    };
    closed(rest, line)
}

// The rule's line, of which the condition and the space behind it were read, up to `start`.
fn rule(rest: &[u8], condition: u8, start: usize) -> Option<LineRead>
    requires { start ≤ length rest.now }
    ensures { result ≡ after_condition rest.now condition start }
{
    let letters = read_part(&rest[start..])?;
    let arrow = start + letters.taken;
    if starts(&rest[arrow..], b" -> ") {
        return replaced(rest, condition, start, start + letters.count, arrow + 4);
    }
    None
}

// The line with which these bytes begin, if one does.
pub fn line(rest: &[u8]) -> Option<LineRead>
    ensures { result ≡ found_in rest.now }
{
    match read_head(rest)? {
        Head::Group { gate, taken } => Some(LineRead::Group { gate, taken }),
        Head::Condition { number, taken } => rule(rest, number, taken),
    }
}
