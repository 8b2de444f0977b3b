// The translation from a sheet to a table laid out by levels, in the lent table itself.
#![tactic(auto)]

ghost use Rattle.paper.specs.Words.{Gives};
ghost use Rattle.answers.specs.Answers.{number_of_translated, value_of_translated};
ghost use Rattle.translations.specs.Translations.{translation};

mod laying_out;
mod looks;
mod rows;

use answers::TranslationRefusal;
use laying_out::lay;
use sheets::AcceptedSheet;

// Translates a sheet to a table, and counts the nodes that it lays out.
pub fn translate(sheet: &[u8], table: &mut [u16]) -> Result<usize, TranslationRefusal>
    ensures { Gives (translation sheet.now table.old)
        (number_of_translated result) (value_of_translated result) table.new }
{
    let counts = sheets::check(sheet)?;
    let end = 4 * counts.nodes;
    if table.len() < end {
        return Err(TranslationRefusal::Short);
    }
    lay(AcceptedSheet { bytes: sheet }, &mut table[..end]);
    Ok(counts.nodes)
}
