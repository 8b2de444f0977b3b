// Number 7, judged in the lent table itself: a table is the one that its sheet makes exactly if it is a forest laid out by levels
// through which the rules' endings lead as they must.
#![tactic(auto)]

ghost use Rattle.std.specs.Prelude.{◌≡◌};
ghost use Rattle.judging.specs.Judgements.{judgement};

mod endings;

use answers::RunRefusal;
use endings::led;
use forests::shape_of;
use sheets::{AcceptedSheet, read};

// Judges a sheet, and a table by it, before a word is looked at: how many nodes the table has, if it is the one that the sheet makes.
pub fn judge(sheet: &[u8], table: &[u16]) -> Result<usize, RunRefusal>
    ensures { result ≡ judgement sheet.now table.now }
{
    let groups = read(sheet)?;
    let nodes = shape_of(table, groups).ok_or(RunRefusal::Table)?;
    let end = 4 * nodes;
    if !led(AcceptedSheet { bytes: sheet }, &table[..end], groups, nodes) {
        return Err(RunRefusal::Table);
    }
    Ok(nodes)
}
