// A word with what is noted beside it.
ghost use Rattle.std.specs.Prelude.{◌≡◌, ◌≤◌, length, take};
ghost use Rattle.paper.specs.Noted.{Noted};

// A word, and its states.
#[derive(Clone, Copy)]
pub(crate) struct NotedWord<'a> {
    pub(crate) letters: &'a [u8],
    pub(crate) states: &'a [u8],
    ghost noted: { Noted letters.now states.now },
}

impl<'a> NotedWord<'a> {
    // So many of its letters, from the first on.
    pub(crate) fn front(self, len: usize) -> NotedWord<'a>
        requires { len ≤ length self.letters.now }
        ensures { result.letters.now ≡ take len self.entry.letters.now }
    {
        NotedWord {
            letters: &self.letters[..len],
            states: self.states,
        }
    }
}
