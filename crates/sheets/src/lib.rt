// Rule sheets: reading a whole sheet, and its check, which counts the nodes of its table too.
#![tactic(auto)]

ghost use Rattle.std.specs.Prelude.{◌≡◌, ◌&&◌, ◌||◌, eqb, leb};
ghost use Rattle.answers.specs.Answers.{tells};
ghost use Rattle.paper.specs.Nodes.{node_count};
ghost use Rattle.sheets.specs.Accepted.{groups_of};
ghost use Rattle.sheets.specs.Checks.{checked};
ghost use Rattle.sheets.specs.Reads.{ReadAs};

mod accepted;

pub use accepted::AcceptedSheet;
use answers::{FaultySheet, SheetCounts};
use passing::pass;
use records::Record;
use records::reader::draw;
use tails::longest_shared;

// A group is the first and runs only if opened, or is the 17th.
pub fn misplaced_group(groups: usize, gate: usize) -> bool
    ensures { result ≡ (eqb groups 0 && eqb gate 1) || leb 16 groups }
{
    ((groups == 0) & (gate == 1)) | (groups >= 16)
}

// A rule stands before any group, or is the 129th.
pub fn misplaced_rule(groups: usize, rules: usize) -> bool
    ensures { result ≡ eqb groups 0 || leb 128 rules }
{
    (groups == 0) | (rules >= 128)
}

// Reads a whole sheet, and counts its groups: so many groups and rules stand before `at`.
pub fn read(sheet: &[u8]) -> Result<usize, FaultySheet>
    ensures { ReadAs sheet.now result }
{
    let mut at = 0;
    let mut groups = 0;
    let mut rules = 0;
    while let Some(record) = draw(sheet, at) {
        match record {
            Record::Group { gate, next } => {
                if misplaced_group(groups, gate) {
                    return Err(FaultySheet { place: at });
                }
                groups += 1;
                at = next;
            }
            Record::Rule(rule) => {
                if misplaced_rule(groups, rules) {
                    return Err(FaultySheet { place: at });
                }
                rules += 1;
                at = rule.next;
            }
            Record::End => return Ok(groups),
        }
    }
    Err(FaultySheet { place: at })
}

// The nodes that the table of an accepted sheet needs: so many are counted before `at`. Of the group that is read, `count` rules
// stand from `first` on.
fn count_nodes(sheet: AcceptedSheet<'_>) -> usize
    ensures { result ≡ node_count (groups_of sheet.entry.bytes.now) }
{
    let bytes = sheet.bytes;
    let mut at = 0;
    let mut nodes = 0;
    let mut first = 0;
    let mut count = 0;
    while let Some(record) = pass(bytes, at) {
        match record {
            Record::Group { gate: _, next } => {
                nodes += 1;
                at = next;
                first = next;
                count = 0;
            }
            Record::Rule(rule) => {
                let ending = &bytes[rule.start..rule.middle];
                nodes += ending.len() - longest_shared(bytes, first, count, ending);
                at = rule.next;
                count += 1;
            }
            Record::End => break,
        }
    }
    nodes
}

// The check of a whole sheet.
pub fn check(sheet: &[u8]) -> Result<SheetCounts, FaultySheet>
    ensures { tells result ≡ checked sheet.now }
{
    let groups = read(sheet)?;
    let nodes = count_nodes(AcceptedSheet { bytes: sheet });
    Ok(SheetCounts { nodes, groups })
}
