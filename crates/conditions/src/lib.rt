// The nine conditions of document 01, by the states of a part and of one and two letters fewer: a look at two or three numbers and the
// last letters. Every function takes any bytes and numbers; a number above 8 is no condition and does not hold.
#![tactic(auto)]

ghost use Rattle.std.specs.Prelude.{◌≡◌, leb, get_or, ℕ, ◌-◌, ◌<◌};
ghost use Rattle.paper.specs.Letters.{letter_at};
ghost use Rattle.paper.specs.States.{double_by, short_by, holds_by, reaches_by};
ghost use Rattle.paper.specs.Noted.{holds_noted};

// The letter at `back` places before the last, or 0 where there is none.
pub fn letter_at(part: &[u8], back: usize) -> u8
    ensures { result ≡ letter_at back part.now }
{
    if back < part.len() {
        let at = part.len() - 1 - back;
        part[at]
    } else {
        0
    }
}

fn double(part: &[u8], state: usize, before: usize) -> bool
    ensures { result ≡ double_by part.now state before 0 }
{
    (letter_at(part, 0) == letter_at(part, 1))
        & ((1 < part.len()) & ((state % 2 != 1) & (before % 2 != 1)))
}

fn short(part: &[u8], state: usize, before: usize, earlier: usize) -> bool
    ensures { result ≡ short_by part.now state before earlier }
{
    let last = letter_at(part, 0);
    ((2 < part.len()) & ((earlier % 2 != 1) & (!(before % 2 != 1) & (state % 2 != 1))))
        & !((last == 119) | ((last == 120) | (last == 121)))
}

// Whether the condition of this number holds of a part, by its state and those of one and two letters fewer.
pub fn judged(condition: u8, part: &[u8], state: usize, before: usize, earlier: usize) -> bool
    ensures { result ≡ holds_by condition part.now state before earlier }
{
    let last = letter_at(part, 0);
    match condition {
        0 => true,
        1 => 1 < state,
        2 => 3 < state,
        3 => 0 < state,
        4 => (3 < state) & ((last == 115) | (last == 116)),
        5 => double(part, state, before) & !((last == 108) | ((last == 115) | (last == 122))),
        6 => (state / 2 == 1) & short(part, state, before, earlier),
        7 => (state / 2 == 1) & !short(part, state, before, earlier),
        8 => (3 < state) & (double(part, state, before) & (last == 108)),
        _ => false,
    }
}

// The state that stands at a place, 0 where the list has no such place.
fn state_at(states: &[u8], at: usize) -> usize
    ensures { result ≡ get_or states.now at 0 }
{
    states.get(at).map_or(0, |state| usize::from(*state))
}

// The least state of a part of which the condition holds, for those that the state alone decides; for others more than a state can be.
fn least(condition: u8) -> usize
    ensures { (state : ℕ) → state < 256 → leb result state ≡ reaches_by condition state }
{
    match condition {
        0 => 0,
        1 => 2,
        2 => 4,
        3 => 1,
        _ => 256,
    }
}

// Whether the condition of this number holds of a part, by the states of a word that the part begins.
pub fn holds_by(condition: u8, part: &[u8], states: &[u8]) -> bool
    ensures { result ≡ holds_noted condition part.now states.now }
{
    let n = part.len();
    // of the first four the state alone tells
    if condition < 4 {
        return least(condition) <= state_at(states, n);
    }
    let state = state_at(states, n);
    let before = state_at(states, n.saturating_sub(1));
    let earlier = state_at(states, n.saturating_sub(2));
    judged(condition, part, state, before, earlier)
}
