// The parts of a line: what it begins with, its letters, and what closes it. Each is read where the bytes begin with it.
ghost use Rattle.std.specs.Prelude.{◌≡◌, ◌<◌, ◌==◌, zip};
ghost use Rattle.std.specs.List.{list_all};
ghost use Rattle.lines.specs.Reading.{starts_with, spelled, spelled_in, head_in, part_in, close_in};

// What a line begins with: a whole group's line, or a condition and the space behind it; and how many bytes these are.
#[derive(Clone, Copy)]
pub enum Head {
    Group { gate: usize, taken: usize },
    Condition { number: u8, taken: usize },
}

// An ending or a replacement: so many letters, in so many bytes.
#[derive(Clone, Copy)]
pub struct Letters {
    pub count: usize,
    pub taken: usize,
}

// What closes a rule's line.
#[derive(Clone, Copy)]
pub enum Close {
    Plain,
    Opens,
}

// Whether two parts have the same bytes, from the first on, as far as the shorter reaches.
fn alike(one: &[u8], other: &[u8]) -> bool
    ensures { result ≡ list_all (λ p. p.0 == p.1) (zip one.now other.now) }
{
    one.iter().zip(other).all(|(byte, its)| *byte == *its)
}

// Whether the bytes begin with these. Of a literal each comparison is made in place, since both parts have its length; the library's
// `starts_with` is a call each time, which made a sheet of lines take twice as long.
pub(crate) fn starts(rest: &[u8], front: &[u8]) -> bool
    ensures { result ≡ starts_with front.now rest.now }
{
    if rest.len() < front.len() {
        return false;
    }
    alike(front, &rest[..front.len()])
}

// The condition of this number, as 01's table prints it, and the space behind it.
#[tactic(auto, unfolding(crate::specs::Reading::spelled, crate::specs::Lines::spelling, crate::specs::Lines::spellings, paper::specs::Letters::letters))]
fn spelling(number: usize) -> &'static [u8]
    requires { number < 9 }
    ensures { result.now ≡ spelled number }
{
    match number {
        0 => b"none ",
        1 => b"m>0 ",
        2 => b"m>1 ",
        3 => b"*v* ",
        4 => b"m>1 and (*S or *T) ",
        5 => b"*d and not (*L or *S or *Z) ",
        6 => b"m=1 and *o ",
        7 => b"m=1 and not *o ",
        _ => b"m>1 and *d and *L ",
    }
}

// The condition with which the bytes begin. `m>1` begins two that have a higher number, so the highest is looked for first.
fn read_condition(rest: &[u8]) -> Option<Head>
    ensures { result ≡ spelled_in 9 rest.now }
{
    for number in (0..9).rev() {
        let spelled = spelling(number);
        if starts(rest, spelled) {
            return Some(Head::Condition {
                number: number as u8,
                taken: spelled.len(),
            });
        }
    }
    None
}

pub(crate) fn read_head(rest: &[u8]) -> Option<Head>
    ensures { result ≡ head_in rest.now }
{
    if starts(rest, b"group\n") {
        return Some(Head::Group { gate: 0, taken: 6 });
    }
    if starts(rest, b"group opened\n") {
        return Some(Head::Group { gate: 1, taken: 13 });
    }
    read_condition(rest)
}

// "small letters, or `-` where empty"
pub(crate) fn read_part(rest: &[u8]) -> Option<Letters>
    ensures { result ≡ part_in rest.now }
{
    let count = pieces::first_other(rest);
    if 0 < count {
        return Some(Letters {
            count,
            taken: count,
        });
    }
    if starts(rest, b"-") {
        return Some(Letters { count: 0, taken: 1 });
    }
    None
}

pub(crate) fn read_close(rest: &[u8]) -> Option<Close>
    ensures { result ≡ close_in rest.now }
{
    if starts(rest, b"\n") {
        return Some(Close::Plain);
    }
    if starts(rest, b" opens\n") {
        return Some(Close::Opens);
    }
    None
}
