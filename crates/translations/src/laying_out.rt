// Laying out the table of an accepted sheet. A row that is still to be finished holds four other numbers: how many letters its tail has,
// where in the sheet the rules of its group start, where its tail ends, and how many rules stand before its group.
ghost use Rattle.std.specs.Prelude.{◌≡◌, ◌+◌, ◌*◌, ◌-◌, ◌<◌, length, take, drop};
ghost use Rattle.paper.specs.Nodes.{node_count};
ghost use Rattle.sheets.specs.Accepted.{groups_of};
ghost use Rattle.levels.specs.Layout.{letter_of, table_of};
ghost use Rattle.translations.specs.Midway.{Midway};

use crate::looks::look;
use crate::rows::{put_each, put_row};
use passing::pass;
use paths::number_at;
use records::Record;
use sheets::AcceptedSheet;

// Stores the roots, still to be finished, and returns how many there are.
fn begin(sheet: AcceptedSheet<'_>, table: &mut [u16]) -> usize
    requires { length table.old ≡ 4 * node_count (groups_of sheet.bytes.now) }
    ensures { Midway sheet.entry.bytes.now table.new 0 result }
{
    let bytes = sheet.bytes;
    let mut at = 0;
    let mut roots = 0;
    let mut rules = 0;
    while let Some(record) = pass(bytes, at) {
        match record {
            Record::Group { gate: _, next } => {
                put_row(table, roots, 0, next, 0, rules);
                roots += 1;
                at = next;
            }
            Record::Rule(rule) => {
                rules += 1;
                at = rule.next;
            }
            Record::End => return roots,
        }
    }
    roots
}

// The letter of a tail that ends at a place of the sheet, 0 for the empty one.
fn letter_of(sheet: &[u8], start: usize, end: usize) -> usize
    ensures { (result ≡ letter_of (take (end - start) (drop start sheet.now))) × (result < 65536) }
{
    if end <= start {
        return 0;
    }
    if sheet.len() <= start {
        return 0;
    }
    usize::from(sheet[start])
}

// Finishes a row: stores its children, still to be finished, behind the rows so far. Returns how many rows there are then.
fn finish(sheet: AcceptedSheet<'_>, table: &mut [u16], row: usize, next: usize) -> usize
    requires { (row < next) × Midway sheet.bytes.now table.old row next }
    ensures { Midway sheet.entry.bytes.now table.new (row + 1) result }
{
    let bytes = sheet.bytes;
    let place = 4 * row;
    let depth = number_at(&table[..], place);
    let from = number_at(&table[..], place + 1);
    let end = number_at(&table[..], place + 2);
    let before = number_at(&table[..], place + 3);
    let start = end - depth;
    let mut ends = [0u16; 26];
    let rule = look(bytes, from, before, &bytes[start..end], &mut ends);
    let behind = put_each(table, next, depth + 1, from, &ends, before);
    let letter = letter_of(bytes, start, end);
    let count = behind - next;
    let first = if count == 0 { 0 } else { next };
    put_row(table, row, letter, first, count, rule);
    behind
}

// Lays out the table of a sheet: row by row, and each row's children behind all rows so far.
pub(crate) fn lay(sheet: AcceptedSheet<'_>, table: &mut [u16])
    requires { length table.old ≡ 4 * node_count (groups_of sheet.bytes.now) }
    ensures { table.new ≡ table_of (groups_of sheet.entry.bytes.now) }
{
    let mut next = begin(sheet, table);
    let mut row = 0;
    // no range to go over: each row's children are rows too
    while row < next {
        next = finish(sheet, table, row, next);
        row += 1;
    }
}
