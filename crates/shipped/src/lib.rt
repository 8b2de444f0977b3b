// The shipped rules as lines written as in the paper, as a sheet, and as the table of that sheet, as constants; and their run on a word.
#![tactic(auto)]

ghost use Rattle.std.specs.Prelude.{◌≡◌};
ghost use Rattle.paper.specs.Shipped.{shipped};
ghost use Rattle.paper.specs.Words.{read_word, word_outcome, Gives};
ghost use Rattle.answers.specs.Answers.{number_of_ran, value_of_ran};
ghost use Rattle.sheets.specs.SheetBytes.{sheet_of};
ghost use Rattle.levels.specs.Layout.{table_of};
ghost use Rattle.printed.specs.Printed.{text_of};
ghost use Rattle.lines.specs.Lines.{print};
ghost use Rattle.imports.specs.EverySheet.{lines_of};

pub mod rule_lines;
pub mod sheet_bytes;
pub mod table_numbers;

use answers::RunRefusal;
use rule_lines::LINES;
use sheet_bytes::SHEET;
use table_numbers::TABLE;

// The shipped rules written as in the paper. They make the shipped sheet (`shipped_made` of `imports`).
pub fn lines() -> [u8; 1072]
    ensures { result ≡ text_of print (lines_of shipped) }
{
    LINES
}

// The shipped sheet, whole.
pub fn sheet() -> [u8; 861]
    ensures { result ≡ sheet_of shipped }
{
    SHEET
}

// The table of the shipped sheet.
pub fn table() -> [u16; 648]
    ensures { result ≡ table_of shipped }
{
    TABLE
}

// The run of the two on a word: what reading the shipped rules group by group gives. From 3 letters on that is the stem of demand 2
// (`delivered_runs` of `tables`); a word of one or two letters, which is its own stem, is read here as sheets are.
pub fn run(word: &mut [u8]) -> Result<usize, RunRefusal>
    ensures { Gives (word_outcome (read_word shipped) word.old) (number_of_ran result) (value_of_ran result) word.new }
{
    let rules = sheet();
    let nodes = table();
    tables::run(&rules, &nodes, word)
}
