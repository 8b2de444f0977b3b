// The endings of a sheet's rules, followed through a table: the first rule that ends at each node is noted, and held against the
// rule that the node holds.
ghost use Rattle.std.specs.Prelude.{◌≡◌, ◌*◌, ◌-◌, ◌<◌, ◌≤◌, length};
ghost use Rattle.forests.specs.Forest.{Forest};
ghost use Rattle.forests.specs.Shapes.{Told};
ghost use Rattle.paths.specs.Children.{sought, named, handed, nodes_in};
ghost use Rattle.sheets.specs.Accepted.{groups_of};
ghost use Rattle.walks.specs.Ends.{ends};
ghost use Rattle.walks.specs.Faithful.{exists};
ghost use Rattle.walks.specs.Walk.{reached};
ghost use Rattle.judging.specs.Led.{Led};
ghost use Rattle.judging.specs.Notes.{noted, Fits, Rooted, Blank, NotedAs, Held};

use passing::pass;
use records::Record;
use sheets::AcceptedSheet;

// The node of this letter among those from `first` up to `end`, if one has it. They are known to be inside the table, so no read is
// tested, and none of them is node 0, which is a root.
fn among(table: &[u16], first: usize, end: usize, letter: usize) -> Option<usize>
    requires { (first ≤ end) × ((4 * end ≤ length table.now) × ((end ≤ 1552) × (first < end → 0 < first))) }
    ensures { result ≡ named (sought (end - first) table.now letter first) }
{
    for at in first..end {
        let here = usize::from(table[4 * at]);
        if letter <= here {
            return (letter == here).then_some(at);
        }
    }
    None
}

// The node to which an ending's letters lead from a root of a forest, if they lead to one. `follow` of paths finds the same in any
// table, and so has to test each read.
fn follow(table: &[u16], root: usize, ending: &[u8]) -> Option<usize>
    requires { Rooted table.now root 1552 }
    ensures { result ≡ handed (reached (nodes_in table.now) root ending.now) }
{
    let mut at = root;
    for letter in ending.iter().rev() {
        let first = usize::from(table[4 * at + 1]);
        let end = first + usize::from(table[4 * at + 2]);
        at = among(table, first, end, usize::from(*letter))?;
    }
    Some(at)
}

// Notes at the node where an ending leads the rule that has it, if none is noted there. Whether it leads anywhere.
fn note(table: &[u16], root: usize, ending: &[u8], rule: u8, notes: &mut [u8]) -> bool
    requires { Rooted table.now root (length notes.old) × (length notes.old ≤ 1552) }
    ensures value { result ≡ exists (reached (nodes_in table.now) root ending.now) }
    ensures notes_after { notes.new ≡ noted (reached (nodes_in table.now) root ending.now) rule
        notes.old }
{
    let Some(at) = follow(table, root, ending) else {
        return false;
    };
    if notes[at] == 0 {
        notes[at] = rule;
    }
    true
}

// Notes all rules of a sheet, in its order. Whether each ending leads somewhere.
fn note_all(sheet: AcceptedSheet<'_>, table: &[u16], notes: &mut [u8]) -> bool
    requires { Fits table.now (length (groups_of sheet.bytes.now)) (length notes.old)
        × ((length notes.old ≤ 1552) × Blank notes.old) }
    ensures { NotedAs table.now (ends 0 (groups_of sheet.entry.bytes.now)) result notes.new }
{
    let bytes = sheet.bytes;
    let mut at = 0;
    let mut root = 0;
    let mut groups = 0;
    let mut rules = 0;
    while let Some(record) = pass(bytes, at) {
        match record {
            Record::Group { gate: _, next } => {
                root = groups;
                groups += 1;
                at = next;
            }
            Record::Rule(rule) => {
                rules += 1;
                if !note(table, root, &bytes[rule.start..rule.middle], rules, notes) {
                    return false;
                }
                at = rule.next;
            }
            Record::End => return true,
        }
    }
    false
}

// Whether each node holds the rule that is noted for it, and some rule is noted for each that has no children and is no root.
fn held_as_noted(table: &[u16], roots: usize, nodes: usize, notes: &[u8]) -> bool
    requires { (nodes ≤ length notes.now) × ((nodes ≤ 1552) × (4 * nodes ≤ length table.now)) }
    ensures { Told (Held table.now roots nodes notes.now) result }
{
    for i in 0..nodes {
        let rule = u16::from(notes[i]);
        if rule != table[4 * i + 3] {
            return false;
        }
        let count = table[4 * i + 2];
        if (rule == 0) & (roots <= i) & (count == 0) {
            return false;
        }
    }
    true
}

// Whether the rules' endings lead through this forest as they must.
pub(crate) fn led(sheet: AcceptedSheet<'_>, table: &[u16], roots: usize, nodes: usize) -> bool
    requires { (roots ≡ length (groups_of sheet.bytes.now)) × (Forest table.now roots nodes × (nodes ≤ 1552)) }
    ensures { Told (Led table.now roots nodes (ends 0 (groups_of sheet.entry.bytes.now))) result }
{
    let mut notes = [0u8; 1552];
    if !note_all(sheet, table, &mut notes) {
        return false;
    }
    held_as_noted(table, roots, nodes, &notes)
}
