// Exception lists: the check of a list, and the stem that it has for a word. Document 02, W-205, decides; `specs/` writes it down.
#![tactic(auto)]

ghost use Rattle.std.specs.Prelude.{◌≡◌, eqb};
ghost use Rattle.std.specs.List.{starts_with};
ghost use Rattle.answers.specs.Answers.{says_list};
ghost use Rattle.lists.specs.Lists.{faulty_entry};
ghost use Rattle.lists.specs.Calls.{checked, LookedUp, is_listed};
ghost use Rattle.lists.specs.Searches.{item_at, is_for, searched, found, LentFrom};

use answers::FaultyList;
use records::framing::{faulty_end, frame_at};

// The most letters that a word has.
const MOST: usize = 64;

// A body of kind 4: "a byte n, n letters of the word, the rest its stem".
fn faulty_entry(body: &[u8]) -> bool
    ensures { result ≡ faulty_entry body.now }
{
    let [n, letters @ ..] = body else {
        return true;
    };
    let n = usize::from(*n);
    let size = letters.len();
    // a stem has a letter, and no more than its word: so the word has one too
    if MOST < n || size <= n || n < size - n {
        return true;
    }
    pieces::first_other(letters) < size
}

// What stands at a place of a list: a word with its stem, and where the next record starts; or the close.
#[derive(Clone, Copy)]
pub enum Item {
    Word(usize),
    Close,
}

// None for a faulty record.
fn item_at(list: &[u8], at: usize) -> Option<Item>
    ensures { result ≡ item_at list.now at }
{
    let frame = frame_at(list, at)?;
    match frame.kind {
        3 if !faulty_end(list, frame.body, frame.next) => Some(Item::Close),
        4 if !faulty_entry(&list[frame.body..frame.next]) => Some(Item::Word(frame.next)),
        _ => None,
    }
}

// The check of a whole list: `count` records stand before `at`.
pub fn check(list: &[u8]) -> Result<usize, FaultyList>
    ensures { says_list result ≡ checked list.now }
{
    let mut at = 0;
    let mut count = 0;
    while let Item::Word(next) = item_at(list, at).ok_or(FaultyList { offset: at })? {
        at = next;
        count += 1;
    }
    Ok(count)
}

// How many letters behind the first are compared one by one, until one differs. The library's comparison, which takes many at a time, is
// a call: only behind so many letters does it take no longer.
const FEW: usize = 24;

// Whether the bytes go on with the word's other letters.
fn go_on(bytes: &[u8], others: &[u8]) -> bool
    ensures { result ≡ starts_with eqb bytes.now others.now }
{
    if bytes.len() < others.len() {
        return false;
    }
    if others.len() <= FEW {
        return letters::ends_with(&bytes[..others.len()], others);
    }
    let so_far = letters::ends_with(&bytes[..FEW], &others[..FEW]);
    so_far && bytes[FEW..].starts_with(&others[FEW..])
}

// Whether the bytes begin with the word. Its first letter is asked by itself, as most records for words of its length differ there.
fn begin(bytes: &[u8], word: &[u8]) -> bool
    ensures { result ≡ starts_with eqb bytes.now word.now }
{
    if bytes.len() < word.len() {
        return false;
    }
    let [first, others @ ..] = word else {
        return true;
    };
    bytes[0] == *first && go_on(&bytes[1..word.len()], others)
}

// Whether a record of this body is for this word. Its letters were judged before; that its stem has room in the word's place is asked
// again, so that any bytes may be given.
fn is_for(body: &[u8], word: &[u8]) -> bool
    ensures { result ≡ is_for body.now word.now }
{
    let [n, behind @ ..] = body else {
        return false;
    };
    usize::from(*n) == word.len() && begin(behind, word) && behind.len() - word.len() <= word.len()
}

// The stem in the first record for a word of a list that was accepted, as a part of the list: its records are passed by their frames,
// and judged no more. What is left of the list is kept, and not a place in it: so each record takes fewer steps.
pub fn search<'a>(list: &'a [u8], word: &[u8]) -> Option<&'a [u8]>
    ensures { LentFrom list.entry (searched list.now word.now) result }
{
    let mut rest = list;
    while let Some(frame) = frame_at(rest, 0) {
        if is_for(&rest[frame.body..frame.next], word) {
            let at = list.len() - rest.len();
            return Some(&list[at + frame.body + 1 + word.len()..at + frame.next]);
        }
        rest = &rest[frame.next..];
    }
    None
}

// The same in any list: a faulty one holds no word.
fn find<'a>(list: &'a [u8], word: &[u8]) -> Option<&'a [u8]>
    ensures { LentFrom list.entry (found list.now word.now) result }
{
    match check(list) {
        Ok(_) => search(list, word),
        Err(_) => None,
    }
}

// The listed stem as a part of the list, or the word's own place, whole.
pub fn lookup<'a>(list: &'a [u8], word: &'a [u8]) -> &'a [u8]
    ensures { LookedUp list.entry word.entry result }
{
    match find(list, word) {
        Some(stem) => stem,
        None => word,
    }
}

// Whether the word is listed, and what the lookup hands back is its stem.
pub fn listed(list: &[u8], word: &[u8]) -> bool
    ensures { result ≡ is_listed list.now word.now }
{
    find(list, word).is_some()
}
