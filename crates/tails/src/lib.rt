// How many nodes a rule brings to its group: its ending is held against the earlier endings of the group, found again in the
// sheet. No table is built.
#![tactic(auto)]

ghost use Rattle.std.specs.Prelude.{◌≡◌, max, eqb, drop, length, take_while, reverse};
ghost use Rattle.std.specs.List.{zip};
ghost use Rattle.paper.specs.Nodes.{tails};
ghost use Rattle.paper.specs.LookBack.{shared};
ghost use Rattle.tails.specs.Earlier.{tails_in};

use records::framing::frame_at;
use records::rules::ending_in;

// How long the longest tail is that two endings share: how many letters are the same from the last one on.
fn shared_tail(one: &[u8], other: &[u8]) -> usize
    ensures { result ≡ length (take_while (λ p. eqb p.0 p.1) (zip (reverse one.now) (reverse other.now))) }
{
    let from_the_end = one.iter().rev().zip(other.iter().rev());
    from_the_end.take_while(|p| *p.0 == *p.1).count()
}

// The longer of `least` and of the longest tail that two endings share. A longer one is looked for only where the letter
// before the last `least` is the same in both.
fn longer(one: &[u8], other: &[u8], least: usize) -> usize
    ensures { result ≡ max least (shared one.now (tails other.now)) }
{
    if least >= one.len()
        || least >= other.len()
        || one[one.len() - 1 - least] != other[other.len() - 1 - least]
    {
        return least;
    }
    least.max(shared_tail(one, other))
}

// How long the longest tail is that an ending shares with those of the `count` rules that stand from `first` on.
pub fn longest_shared(sheet: &[u8], first: usize, count: usize, ending: &[u8]) -> usize
    ensures { result ≡ shared ending.now (tails_in count (drop first sheet.now)) }
{
    let mut place = first;
    let mut longest = 0;
    for _ in 0..count {
        let Some(frame) = frame_at(sheet, place) else {
            return longest;
        };
        let earlier = ending_in(&sheet[frame.body..frame.next]);
        longest = longer(ending, earlier, longest);
        place = frame.next;
    }
    longest
}
