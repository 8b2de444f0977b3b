// Which endings of steps 2 to 4 are compared with a word at all: by its second last letter a block of the group's rules, and of these none
// where the letters beside it are no ending's. So for most words no table is named.
#![tactic(auto)]

ghost use Rattle.std.specs.Prelude.{◌≡◌, true};
ghost use Rattle.blocks.specs.Blocks.{member, passes, names};
ghost use Rattle.blocks.specs.Indexes.{index_of};

// The rules of a group with one letter second last, from a number up to another; and which letters they have last and third
// last, a bit for each.
#[derive(Clone, Copy)]
pub struct Block {
    pub from: usize,
    pub to: usize,
    pub lasts: u32,
    pub thirds: u32,
}

impl Block {
    // Whether a word's last and third last letter are in the block's sets.
    pub fn keeps(self, word: &[u8]) -> bool
        ensures { result ≡ passes self.lasts self.thirds word.now }
    {
        has(self.lasts, conditions::letter_at(word, 0))
            & has(self.thirds, conditions::letter_at(word, 2))
    }
}

// Whether a letter is in a set.
fn has(set: u32, letter: u8) -> bool
    ensures { result ≡ member set letter }
{
    (set >> (letter % 32)) % 2 == 1
}

// A letter that is not in an index has no rule, and a set that no letter is in.
const NONE: Block = Block {
    from: 0,
    to: 0,
    lasts: 0,
    thirds: 0,
};

// Each index as a table: the block of each letter, a to z.
const STEP_2: [Block; 26] = [
    // ational and tional
    Block {
        from: 0,
        to: 2,
        lasts: 0x1000,
        thirds: 0x4000,
    },
    NONE, // b
    // enci and anci
    Block {
        from: 2,
        to: 4,
        lasts: 0x200,
        thirds: 0x4000,
    },
    NONE, // d
    // izer
    Block {
        from: 4,
        to: 5,
        lasts: 0x40000,
        thirds: 0x4000000,
    },
    NONE, // f
    NONE, // g
    NONE, // h
    NONE, // i
    NONE, // j
    NONE, // k
    // abli to ousli
    Block {
        from: 5,
        to: 10,
        lasts: 0x200,
        thirds: 0x181024,
    },
    NONE, // m
    NONE, // n
    // ization to ator
    Block {
        from: 10,
        to: 13,
        lasts: 0x44000,
        thirds: 0x100200,
    },
    NONE, // p
    NONE, // q
    NONE, // r
    // alism to ousness
    Block {
        from: 13,
        to: 17,
        lasts: 0x82000,
        thirds: 0x220,
    },
    // aliti to biliti
    Block {
        from: 17,
        to: 20,
        lasts: 0x200,
        thirds: 0x200,
    },
    NONE, // u
    NONE, // v
    NONE, // w
    NONE, // x
    NONE, // y
    NONE, // z
];

const STEP_3: [Block; 26] = [
    // ical
    Block {
        from: 4,
        to: 5,
        lasts: 0x1000,
        thirds: 0x8,
    },
    NONE, // b
    NONE, // c
    NONE, // d
    NONE, // e
    NONE, // f
    NONE, // g
    NONE, // h
    NONE, // i
    NONE, // j
    NONE, // k
    NONE, // l
    NONE, // m
    NONE, // n
    NONE, // o
    NONE, // p
    NONE, // q
    NONE, // r
    // ness
    Block {
        from: 6,
        to: 7,
        lasts: 0x80000,
        thirds: 0x20,
    },
    // icate to iciti
    Block {
        from: 0,
        to: 4,
        lasts: 0x220,
        thirds: 0x202,
    },
    // ful
    Block {
        from: 5,
        to: 6,
        lasts: 0x1000,
        thirds: 0x40,
    },
    // ative
    Block {
        from: 1,
        to: 2,
        lasts: 0x20,
        thirds: 0x200,
    },
    NONE, // w
    NONE, // x
    NONE, // y
    // alize
    Block {
        from: 2,
        to: 3,
        lasts: 0x20,
        thirds: 0x200,
    },
];

const STEP_4: [Block; 26] = [
    // al
    Block {
        from: 0,
        to: 1,
        lasts: 0x1000,
        thirds: 0xffffffff,
    },
    NONE, // b
    // ance and ence
    Block {
        from: 1,
        to: 3,
        lasts: 0x20,
        thirds: 0x4000,
    },
    NONE, // d
    // er
    Block {
        from: 3,
        to: 4,
        lasts: 0x40000,
        thirds: 0xffffffff,
    },
    NONE, // f
    NONE, // g
    NONE, // h
    // ic
    Block {
        from: 4,
        to: 5,
        lasts: 0x8,
        thirds: 0xffffffff,
    },
    NONE, // j
    NONE, // k
    // able and ible
    Block {
        from: 5,
        to: 7,
        lasts: 0x20,
        thirds: 0x4,
    },
    NONE, // m
    // ant to ent
    Block {
        from: 7,
        to: 11,
        lasts: 0x100000,
        thirds: 0x22,
    },
    // ion and ou
    Block {
        from: 11,
        to: 13,
        lasts: 0x204000,
        thirds: 0xffffffff,
    },
    NONE, // p
    NONE, // q
    NONE, // r
    // ism
    Block {
        from: 13,
        to: 14,
        lasts: 0x2000,
        thirds: 0x200,
    },
    // ate and iti
    Block {
        from: 14,
        to: 16,
        lasts: 0x220,
        thirds: 0x202,
    },
    // ous
    Block {
        from: 16,
        to: 17,
        lasts: 0x80000,
        thirds: 0x8000,
    },
    // ive
    Block {
        from: 17,
        to: 18,
        lasts: 0x20,
        thirds: 0x200,
    },
    NONE, // w
    NONE, // x
    NONE, // y
    // ize
    Block {
        from: 18,
        to: 19,
        lasts: 0x20,
        thirds: 0x200,
    },
];

// The groups that have an index.
#[derive(Clone, Copy)]
pub enum Index {
    Step2,
    Step3,
    Step4,
}

impl Index {
    // The block of a letter.
    pub fn block(self, second: u8) -> Block
        ensures { names (index_of self) second result.from result.to result.lasts result.thirds ≡ true }
    {
        if !second.is_ascii_lowercase() {
            return NONE;
        }
        let blocks = match self {
            Index::Step2 => &STEP_2,
            Index::Step3 => &STEP_3,
            Index::Step4 => &STEP_4,
        };
        blocks[usize::from(second - b'a')]
    }
}
