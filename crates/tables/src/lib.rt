// The run of a table on a word.
#![tactic(auto)]

ghost use Rattle.paper.specs.Words.{Gives};
ghost use Rattle.answers.specs.Answers.{number_of_ran, value_of_ran};
ghost use Rattle.tables.specs.RunOutcomes.{run_outcome};

mod runs;
mod word_runs;

use answers::RunRefusal;
use judging::judge;
use sheets::AcceptedSheet;
use word_runs::word_run;

// Runs a table on a word, after the sheet and the table are held against each other.
pub fn run(sheet: &[u8], table: &[u16], word: &mut [u8]) -> Result<usize, RunRefusal>
    ensures { Gives (run_outcome sheet.now table.now word.old)
        (number_of_ran result) (value_of_ran result) word.new }
{
    let nodes = judge(sheet, table)?;
    let end = 4 * nodes;
    let left = word_run(AcceptedSheet { bytes: sheet }, &table[..end], word)?;
    Ok(left)
}
