// What each call answers: what it found, or why it is refused, with document 01's numbers for both; and what is said of a word before it
// is read.
#![tactic(auto)]

ghost use Rattle.std.specs.Prelude.{◌≡◌};
ghost use Rattle.paper.specs.Words.{judged, judged_by};
ghost use Rattle.answers.specs.Answers.{Said, TextSaid, said, text_said, tells, judgement_of};
ghost use Rattle.answers.specs.Answers.{refused_word, refused_text, refused_sheet, refused_making, refused_translation, refused_run};
ghost use Rattle.answers.specs.Answers.{refused_list, refused_with_list, refused_vocabulary};
ghost use Rattle.answers.specs.declared.TranslationRefusal.TheVariants.{Sheet as Untranslated};
ghost use Rattle.answers.specs.declared.RunRefusal.TheVariants.{Sheet as Unread, Word};
ghost use Rattle.answers.specs.declared.ListedRefusal.TheVariants.{List};

// An answer in numbers: document 01's number, and the value returned besides it.
#[derive(Clone, Copy)]
pub struct Reply {
    pub number: u8,
    pub value: usize,
}

// That of a text: the number, and the two counts.
#[derive(Clone, Copy)]
pub struct TextReply {
    pub number: u8,
    pub stemmed: usize,
    pub left: usize,
}

// Why a call is refused: each reason has its number, and a value returned besides it.
pub trait Refusal {
    ghost refused: { Self → Said };

    fn reply(&self) -> Reply
        ensures number { result.number ≡ (refused self.now).number }
        ensures value { result.value ≡ (refused self.now).value };
}

// What any call answers, in numbers: 0 with the number that it found, or the refusal's.
pub fn in_numbers<E: Refusal + Drop>(answer: Result<usize, E>) -> Reply
    ensures number { result.number ≡ (said E.refused answer).number }
    ensures value { result.value ≡ (said E.refused answer).value }
{
    match answer {
        Ok(value) => Reply { number: 0, value },
        Err(refusal) => refusal.reply(),
    }
}

// What the text run counts: the words that were rewritten, and those that were left.
#[derive(Clone, Copy)]
pub struct Counts {
    pub stemmed: usize,
    pub left: usize,
}

// The same of a text: 0 with the two counts, or the refusal's number and value.
pub fn text_in_numbers<E: Refusal + Drop>(answer: Result<Counts, E>) -> TextReply
    ensures number { result.number ≡ (text_said E.refused answer).number }
    ensures stemmed { result.stemmed ≡ (text_said E.refused answer).stemmed }
    ensures left { result.left ≡ (text_said E.refused answer).left }
{
    match answer {
        Ok(counts) => TextReply {
            number: 0,
            stemmed: counts.stemmed,
            left: counts.left,
        },
        Err(refusal) => {
            let reply = refusal.reply();
            TextReply {
                number: reply.number,
                stemmed: reply.value,
                left: 0,
            }
        }
    }
}

// Why a word is refused; otherwise the length of its stem is found.
#[derive(Clone, Copy)]
pub enum WordRefusal {
    // 1: the word has 0 or more than 64 bytes.
    WrongLength,
    // 2: the place of the word's first byte outside a to z.
    OtherByte(usize),
    // 4: some group's result is longer than the word's place. The shipped rules never give it.
    Outgrown,
}

impl Refusal for WordRefusal {
    ghost refused = { refused_word };

    fn reply(&self) -> Reply {
        match *self {
            WordRefusal::WrongLength => Reply {
                number: 1,
                value: 0,
            },
            WordRefusal::OtherByte(other) => Reply {
                number: 2,
                value: other,
            },
            WordRefusal::Outgrown => Reply {
                number: 4,
                value: 0,
            },
        }
    }
}

// 5: the text has more than 65,536 bytes. A text has no 2: of the bytes outside a to z capitals are made small, and the others separate
// words.
#[derive(Clone, Copy)]
pub struct TooLong;

impl Refusal for TooLong {
    ghost refused = { refused_text };

    fn reply(&self) -> Reply {
        Reply {
            number: 5,
            value: 0,
        }
    }
}

// What the check of a sheet finds: the nodes that its table needs; and how many groups it has, for who goes on with it.
#[derive(Clone, Copy)]
pub struct SheetCounts {
    pub nodes: usize,
    pub groups: usize,
}

// 3: the place where the sheet's first faulty record starts.
#[derive(Clone, Copy)]
pub struct FaultySheet {
    pub place: usize,
}

impl Refusal for FaultySheet {
    ghost refused = { refused_sheet };

    fn reply(&self) -> Reply {
        Reply {
            number: 3,
            value: self.place,
        }
    }
}

// The check of a sheet in numbers: 01's value is the node count alone.
pub fn sheet_in_numbers(answer: Result<SheetCounts, FaultySheet>) -> Reply
    ensures number { result.number ≡ (tells answer).number }
    ensures value { result.value ≡ (tells answer).value }
{
    match answer {
        Ok(counts) => Reply {
            number: 0,
            value: counts.nodes,
        },
        Err(refusal) => refusal.reply(),
    }
}

// Why no sheet is made from lines; otherwise the length of the sheet that was written is found.
#[derive(Clone, Copy)]
pub enum MakingRefusal {
    // 8: the number, from 1, of the first line that is not of the form or whose record is faulty.
    Line(usize),
    // 9: the lent sheet is too short.
    Short,
}

impl Refusal for MakingRefusal {
    ghost refused = { refused_making };

    fn reply(&self) -> Reply {
        match *self {
            MakingRefusal::Line(line) => Reply {
                number: 8,
                value: line,
            },
            MakingRefusal::Short => Reply {
                number: 9,
                value: 0,
            },
        }
    }
}

// Why a sheet is not translated; otherwise the nodes that were laid out are counted.
#[derive(Clone, Copy)]
pub enum TranslationRefusal {
    // 3
    Sheet(FaultySheet),
    // 6: the lent table is too short.
    Short,
}

impl Refusal for TranslationRefusal {
    ghost refused = { refused_translation };

    fn reply(&self) -> Reply {
        match *self {
            TranslationRefusal::Sheet(sheet) => sheet.reply(),
            TranslationRefusal::Short => Reply {
                number: 6,
                value: 0,
            },
        }
    }
}

impl From<FaultySheet> for TranslationRefusal {
    ghost from_gives = { λ sheet refusal. refusal ≡ Untranslated sheet };

    fn from(sheet: FaultySheet) -> TranslationRefusal {
        TranslationRefusal::Sheet(sheet)
    }
}

// Why a table is not run on a word; otherwise the length of the stem is found.
#[derive(Clone, Copy)]
pub enum RunRefusal {
    // 3
    Sheet(FaultySheet),
    // 7: the table is not the sheet's.
    Table,
    // 1, 2, 4
    Word(WordRefusal),
}

impl Refusal for RunRefusal {
    ghost refused = { refused_run };

    fn reply(&self) -> Reply {
        match *self {
            RunRefusal::Sheet(sheet) => sheet.reply(),
            RunRefusal::Table => Reply {
                number: 7,
                value: 0,
            },
            RunRefusal::Word(word) => word.reply(),
        }
    }
}

impl From<FaultySheet> for RunRefusal {
    ghost from_gives = { λ sheet refusal. refusal ≡ Unread sheet };

    fn from(sheet: FaultySheet) -> RunRefusal {
        RunRefusal::Sheet(sheet)
    }
}

impl From<WordRefusal> for RunRefusal {
    ghost from_gives = { λ word refusal. refusal ≡ Word word };

    fn from(word: WordRefusal) -> RunRefusal {
        RunRefusal::Word(word)
    }
}

// 10: the offset of the list's first faulty record. The check of a list otherwise finds how many words it lists, each record
// counted.
#[derive(Clone, Copy)]
pub struct FaultyList {
    pub offset: usize,
}

impl Refusal for FaultyList {
    ghost refused = { refused_list };

    fn reply(&self) -> Reply {
        Reply {
            number: 10,
            value: self.offset,
        }
    }
}

// Why a call on a word or a text with an exception list is refused.
#[derive(Clone, Copy)]
pub enum ListedRefusal<E> {
    // 10
    List(FaultyList),
    // What the call without a list is refused for.
    Call(E),
}

impl<E: Refusal> Refusal for ListedRefusal<E> {
    ghost refused = { refused_with_list E.refused };

    fn reply(&self) -> Reply {
        match self {
            ListedRefusal::List(list) => list.reply(),
            ListedRefusal::Call(call) => call.reply(),
        }
    }
}

impl<E> From<FaultyList> for ListedRefusal<E> {
    ghost from_gives = { λ list refusal. refusal ≡ List list };

    fn from(list: FaultyList) -> ListedRefusal<E> {
        ListedRefusal::List(list)
    }
}

// 11: the number, from 1, of the first line of a vocabulary that is not of the form. The check of a vocabulary otherwise finds the number,
// from 1, of the first line whose stem is not the word's, and 0 where every line is right.
#[derive(Clone, Copy)]
pub struct MisformedLine {
    pub line: usize,
}

impl Refusal for MisformedLine {
    ghost refused = { refused_vocabulary };

    fn reply(&self) -> Reply {
        Reply {
            number: 11,
            value: self.line,
        }
    }
}

// "1, 2 .. for a word", by its length and the place of its first byte outside a to z.
pub fn judge_by(length: usize, other: usize) -> Result<(), WordRefusal>
    ensures { judgement_of result ≡ judged_by length other }
{
    if length == 0 {
        return Err(WordRefusal::WrongLength);
    }
    if 64 < length {
        return Err(WordRefusal::WrongLength);
    }
    if other < length {
        return Err(WordRefusal::OtherByte(other));
    }
    Ok(())
}

pub fn judge(word: &[u8]) -> Result<(), WordRefusal>
    ensures { judgement_of result ≡ judged word.now }
{
    judge_by(word.len(), pieces::first_other(word))
}
