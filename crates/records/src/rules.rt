// The body of a rule: "bytes for condition, action, opens, length n of S1; then n letters of S1; the rest is S2".
ghost use Rattle.std.specs.Prelude.{◌≡◌, ◌||◌, ◌+◌, ◌<◌, ltb, length};
ghost use Rattle.records.specs.Records.{ending, outside};
ghost use Rattle.records.specs.RecordAnswers.{rule_record, rule_told};

use crate::{Record, RuleRecord};
use bounds::{above, faulty_action};

// Some byte is outside a to z.
fn has_other(bytes: &[u8]) -> bool
    ensures { result ≡ outside bytes.now }
{
    pieces::first_other(bytes) < bytes.len()
}

// S2 is too long, or some byte of S1 or S2 is no letter.
fn faulty_letters(s1: &[u8], s2: &[u8]) -> bool
    ensures { result ≡ ltb 12 (length s2.now) || outside s1.now || outside s2.now }
{
    let long = s2.len() > 12;
    let first = has_other(s1);
    let second = has_other(s2);
    long | first | second
}

// S1 of a rule's body, which is not judged again.
pub fn ending_in(body: &[u8]) -> &[u8]
    ensures { result.now ≡ ending body.now }
{
    let [_, _, _, n, ref letters @ ..] = *body else {
        return &[];
    };
    let n = usize::from(n);
    if letters.len() < n {
        return letters;
    }
    &letters[..n]
}

impl RuleRecord {
    // The numbers of a rule's body that starts at this place, and where its letters stand: nothing is judged. None where the body
    // ends before its numbers do, or before S1 does.
    pub fn read(body: &[u8], place: usize) -> Option<RuleRecord>
        requires { place + length body.now < 18446744073709551616 }
        ensures { result ≡ rule_told place body.now }
    {
        let [condition, action, opens, n, ..] = *body else {
            return None;
        };
        let n = usize::from(n);
        let end = 4 + n;
        if body.len() < end {
            return None;
        }
        let start = place + 4;
        let middle = place + end;
        let next = place + body.len();
        Some(RuleRecord {
            condition,
            action,
            opens,
            start,
            middle,
            next,
        })
    }
}

// A rule's record, whose body starts at this place. None where it is faulty.
pub(crate) fn rule_in(body: &[u8], place: usize) -> Option<Record>
    requires { place + length body.now < 18446744073709551616 }
    ensures { result ≡ rule_record place body.now }
{
    let rule = RuleRecord::read(body, place)?;
    let (s1, s2) = body[4..].split_at(rule.middle - rule.start);
    if above(
        rule.condition,
        rule.action,
        rule.opens,
        s1.len(),
        rule.middle,
        rule.next,
    ) || faulty_letters(s1, s2)
        || faulty_action(rule.condition, rule.action, s1.len(), s2.len())
    {
        return None;
    }
    Some(Record::Rule(rule))
}
