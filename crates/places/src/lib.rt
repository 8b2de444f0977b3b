// What is written in a word's place: letters put into it, and spaces behind the stem.
#![tactic(auto)]

ghost use Rattle.std.specs.Prelude.{◌≡◌, ◌++◌, ◌-◌, length, take};
ghost use Rattle.paper.specs.Words.{spaces};
ghost use Rattle.places.specs.Put.{put_at};

// Writes letters at a place of the word's place, if they fit there. Where a letter stands already, nothing is written: most
// of a replacement's letters do.
pub fn put(place: &mut [u8], at: usize, letters: &[u8])
    ensures { place.new ≡ put_at place.old at letters.now }
{
    if place.len() < letters.len() {
        return;
    }
    if place.len() - letters.len() < at {
        return;
    }
    for (i, letter) in letters.iter().enumerate() {
        if place[at + i] != *letter {
            place[at + i] = *letter;
        }
    }
}

// "the stem stands first and spaces fill the rest"
pub fn fill(place: &mut [u8], stem: usize)
    ensures { place.new ≡ take stem place.old ++ spaces (length place.old - stem) }
{
    if stem < place.len() {
        place[stem..].fill(b' ');
    }
}
