// A rule, read from its row of a table.
ghost use Rattle.std.specs.Prelude.{◌≡◌, ◌+◌, ◌*◌, ◌<◌, ◌≤◌, ◌^◌, eqb, get_or};
ghost use Rattle.paper.specs.Groups.{ends_with};
ghost use Rattle.rules.specs.Rows.{size_at, added_at, written_at, rule_at, Rows};
ghost use Rattle.groups.specs.Reads.{asks, cut_at};

// The rule of a number, from 0, whose row stands in the table.
#[derive(Clone, Copy)]
pub(crate) struct Row<'a> {
    pub(crate) rules: &'a [u8],
    pub(crate) rule: usize,
    ghost stands: { Rows rules.now (rule + 1) },
}

impl<'a> Row<'a> {
    // How many letters its ending has.
    pub(crate) fn size(self) -> usize
        ensures value { result ≡ size_at self.entry.rules.now self.entry.rule }
        ensures upper_bound { result ≤ 7 }
    {
        usize::from(self.rules[16 * self.rule + 3] % 8)
    }

    // How many letters its replacement has.
    fn added(self) -> usize
        ensures value { result ≡ added_at self.entry.rules.now self.entry.rule }
        ensures upper_bound { result ≤ 4 }
    {
        usize::from(self.rules[16 * self.rule + 4]).min(4)
    }

    // Whether the word ends with its ending.
    pub(crate) fn fits(self, word: &[u8]) -> bool
        ensures { result ≡ ends_with word.now (rule_at self.entry.rules.now self.entry.rule).ending }
    {
        let to = 16 * self.rule + 12;
        letters::ends_with(word, &self.rules[to - self.size()..to])
    }

    // Whether its condition holds of the part before its ending.
    pub(crate) fn allowed(self, word: &[u8], states: &[u8]) -> bool
        ensures { result ≡ asks self.entry.rules.now self.entry.rule word.now states.now }
    {
        let part = word.len().saturating_sub(self.size());
        conditions::holds_by(self.rules[16 * self.rule], &word[..part], states)
    }

    // Whether it leaves a single letter.
    pub(crate) fn single(self) -> bool
        ensures { result ≡ eqb (get_or self.entry.rules.now (16 * self.entry.rule + 1) 0) 1 }
    {
        self.rules[16 * self.rule + 1] == 1
    }

    // Whether it opens the next group.
    pub(crate) fn opens(self) -> bool
        ensures { result ≡ (rule_at self.entry.rules.now self.entry.rule).opens }
    {
        self.rules[16 * self.rule + 2] == 1
    }

    // Its replacement.
    pub(crate) fn written(self) -> &'a [u8]
        ensures { result.now ≡ written_at self.entry.rules.now self.entry.rule }
    {
        let start = 16 * self.rule + 12;
        &self.rules[start..start + self.added()]
    }

    // How many letters of so many it leaves, if it only cuts.
    pub(crate) fn cut(self, len: usize) -> usize
        requires { len < 2 ^ 63 }
        ensures { result ≡ cut_at self.entry.rules.now self.entry.rule len }
    {
        let part = len.saturating_sub(self.size());
        if self.single() {
            return part.saturating_sub(1);
        }
        part + self.added()
    }
}
