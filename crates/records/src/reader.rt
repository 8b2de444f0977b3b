// "The records are drawn by a reader that holds the caller's sheet and its place in it." Each function over the reader is
// thin: it takes the reader apart, and the work is done on the sheet and the place.
ghost use Rattle.std.specs.Prelude.{◌≡◌};
ghost use Rattle.records.specs.RecordAnswers.{record_at};

use crate::{Record, record_at};

#[derive(Clone, Copy)]
pub struct Reader<'a> {
    pub sheet: &'a [u8],
    pub at: usize,
}

impl<'a> Reader<'a> {
    // A reader of this sheet, at this place.
    pub fn new(sheet: &'a [u8], at: usize) -> Self
        ensures { (result.sheet ≡ sheet.entry) × (result.at ≡ at) }
    {
        Reader { sheet, at }
    }

    // The record at the reader's place. None where it is faulty.
    pub fn record(self) -> Option<Record>
        ensures { result ≡ record_at self.entry.sheet.now self.entry.at }
    {
        record_at(self.sheet, self.at)
    }
}

// The record at a place of a sheet, drawn by a reader. Its callers need not know of the reader.
pub fn draw(sheet: &[u8], at: usize) -> Option<Record>
    ensures { result ≡ record_at sheet.now at }
{
    Reader::new(sheet, at).record()
}
