// The class of a letter, the measure and the conditions of document 01, on byte slices; endings; and the states of a word, noted beside
// it. Every function takes any bytes: a byte outside a to z is a consonant.
#![tactic(auto)]

ghost use Rattle.std.specs.Prelude.{◌≡◌, List, [], ◌∷◌, ◌++◌, ltb, ℕ, ◌+◌, ◌<◌, ◌≤◌, ◌^◌, ◌==◌, zip};
ghost use Rattle.std.specs.List.{list_all};
ghost use Rattle.paper.specs.Letters.{vowel_after, measure as measure_of};
ghost use Rattle.paper.specs.Conditions.{holds as holds_of};
ghost use Rattle.paper.specs.States.{state as state_of};
ghost use Rattle.paper.specs.Noted.{class_before, next_state};
ghost use Rattle.paper.specs.Groups.{ends_with};
ghost use Rattle.paper.specs.Words.{first_other};
ghost use Rattle.letters.specs.Scan.{Scanned};
ghost use Rattle.letters.specs.Notes.{noted, renewed};

// Whether a letter is a vowel, odd for yes: first by whether the letter before it was a consonant, then by the letter, a to z.
const CLASS: [[u8; 26]; 2] = [
    *b"10201020102020102020102020",
    *b"10201020102020102020102010",
];

// What a forward scan has found of the letters passed.
#[derive(Clone, Copy)]
struct Passed {
    // Their state, and those of one and two letters fewer: twice the measure, and 1 more where the last letter is a vowel.
    state: usize,
    before: usize,
    earlier: usize,
    // Whether the last of them is a consonant: the row of CLASS for the next letter.
    consonant: bool,
}

impl Passed {
    // Before the first letter.
    fn nothing() -> Passed
        ensures { (result.state ≡ 0) × Scanned [] result }
    {
        Passed {
            state: 0,
            before: 0,
            earlier: 0,
            consonant: false,
        }
    }

    // One letter more.
    fn step(self, letter: u8) -> Passed
        requires { self.state < 2 ^ 63 }
        ensures state_bound { result.state ≤ self.state + 1 }
        ensures by_index { (part : List ℕ) → Scanned part self → Scanned (part ++ letter ∷ []) result }
    {
        let state = next_state(self.consonant, self.state, letter);
        Passed {
            state,
            before: self.state,
            earlier: self.before,
            consonant: state % 2 != 1,
        }
    }
}

// Both rows are read, so that the look at the table does not wait for the class of the letter before.
fn vowel_after(consonant: bool, letter: u8) -> bool
    ensures { result ≡ vowel_after (class_before consonant) letter }
{
    if letter < 97 {
        return false;
    }
    if 122 < letter {
        return false;
    }
    let column = usize::from(letter - 97);
    (CLASS[0][column] % 2 == 1) | ((CLASS[1][column] % 2 == 1) & consonant)
}

// The state after one letter more: one more where the class is another.
fn next_state(consonant: bool, state: usize, letter: u8) -> usize
    requires { state < 2 ^ 63 }
    ensures { result ≡ next_state consonant state letter }
{
    if vowel_after(consonant, letter) == (state % 2 == 1) {
        return state;
    }
    state + 1
}

fn scan(part: &[u8]) -> Passed
    ensures { Scanned part.now result }
{
    let mut s = Passed::nothing();
    for letter in part {
        s = s.step(*letter);
    }
    s
}

// Whether the state is above k. The scan stops where it is known.
fn above(part: &[u8], k: usize) -> bool
    ensures { result ≡ ltb k (state_of part.now) }
{
    let mut s = Passed::nothing();
    for letter in part {
        s = s.step(*letter);
        if k < s.state {
            return true;
        }
    }
    false
}

pub fn measure(part: &[u8]) -> usize
    ensures { result ≡ measure_of part.now }
{
    let s = scan(part);
    s.state / 2
}

// Whether the condition of this number holds of the part before an ending. Of the first three the state alone says it.
pub fn holds(condition: u8, part: &[u8]) -> bool
    ensures { result ≡ holds_of condition part.now }
{
    match condition {
        0 => true,
        1 => above(part, 1),
        2 => above(part, 3),
        3 => above(part, 0),
        _ => {
            // Condition 8 is asked of every word, and few end in l.
            if condition == 8 && conditions::letter_at(part, 0) != 108 {
                return false;
            }
            let s = scan(part);
            conditions::judged(condition, part, s.state, s.before, s.earlier)
        }
    }
}

// Notes the states of a word behind the first place of a list that is longer than it, and returns the place of the first byte outside
// a to z, or the word's length; no state is noted from that byte on.
pub fn note(word: &[u8], states: &mut [u8]) -> usize
    ensures value { result ≡ first_other word.now }
    ensures states_after { states.new ≡ noted states.old word.now }
{
    if (states.len() <= word.len()) | (255 < word.len()) {
        return pieces::first_other(word);
    }
    let mut state: usize = 0;
    // The class of the letter before is kept by itself, so that no letter waits for the state's parity.
    let mut vowel = false;
    let mut consonant = false;
    for (i, &letter) in word.iter().enumerate() {
        if letter < 97 {
            return i;
        }
        if 122 < letter {
            return i;
        }
        let now = vowel_after(consonant, letter);
        if now != vowel {
            state += 1;
        }
        vowel = now;
        consonant = !now;
        states[i + 1] = state as u8;
    }
    word.len()
}

// Notes the states of a word again behind a place: the letters from there on were written.
pub fn renew(word: &[u8], states: &mut [u8], from: usize)
    ensures { states.new ≡ renewed states.old word.now from }
{
    if word.len() < from {
        return;
    }
    if states.len() <= word.len() {
        return;
    }
    let mut state = usize::from(states[from]);
    if 255 < state + (word.len() - from) {
        return;
    }
    let mut consonant = (0 < from) & (state % 2 != 1);
    for i in from..word.len() {
        state = next_state(consonant, state, word[i]);
        consonant = state % 2 != 1;
        states[i + 1] = state as u8;
    }
}

// Whether two parts have the same letters, from the first on, as far as the shorter reaches.
fn alike(one: &[u8], other: &[u8]) -> bool
    ensures { result ≡ list_all (λ p. p.0 == p.1) (zip one.now other.now) }
{
    one.iter().zip(other).all(|(letter, its)| *letter == *its)
}

// Whether the word ends with the ending.
pub fn ends_with(word: &[u8], ending: &[u8]) -> bool
    ensures { result ≡ ends_with word.now ending.now }
{
    let n = ending.len();
    if word.len() < n {
        return false;
    }
    // From the first letter: a caller with an index by last letter knows the last already.
    alike(&word[word.len() - n..], ending)
}
