// The bounds that the numbers of a rule's record keep.
#![tactic(auto)]

ghost use Rattle.std.specs.Prelude.{◌≡◌, not, ◌&&◌, ◌||◌, eqb, ltb};
ghost use Rattle.paper.specs.Conditions.{for_single, highest};

// The highest condition.
const HIGHEST: u8 = 8;

// Some number of a rule is above its bound. S1 would end at `middle` of the body.
pub fn above(
    condition: u8,
    action: u8,
    opens: u8,
    ending: usize,
    middle: usize,
    size: usize,
) -> bool
    ensures { result ≡ ltb highest condition || ltb 1 action || ltb 1 opens || ltb 12 ending || ltb size middle }
{
    (condition > HIGHEST) | (action > 1) | (opens > 1) | (ending > 12) | (size < middle)
}

// A single letter is asked for with another condition, or with letters.
pub fn faulty_action(condition: u8, action: u8, ending: usize, replacement: usize) -> bool
    ensures { result ≡ eqb action 1 && (not (for_single condition) || not (eqb ending 0) || not (eqb replacement 0)) }
{
    (action == 1) & (!((condition == 5) | (condition == 8)) | (ending != 0) | (replacement != 0))
}
