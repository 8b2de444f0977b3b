// The shipped rules of document 01 as constant tables: "The list is held as a constant table". One function hands each table out, and
// its contract ties it to the list in `paper`.
#![tactic(auto)]

ghost use Rattle.std.specs.Prelude.{◌≡◌};
ghost use Rattle.rules.specs.Rows.{rows_of};
ghost use Rattle.rules.specs.Shipped.{rules_of};

mod rows;

use rows::{
    FOLLOW_UP, GROUP_1A, GROUP_1B, GROUP_1C, GROUP_2, GROUP_3, GROUP_4, GROUP_5A, GROUP_5B,
};

// The groups of the shipped list, in its order.
#[derive(Clone, Copy)]
pub enum Group {
    Step1a,
    Step1b,
    FollowUp,
    Step1c,
    Step2,
    Step3,
    Step4,
    Step5a,
    Step5b,
}

// The table of a group.
pub fn table(group: Group) -> &'static [u8]
    ensures { result.now ≡ rows_of (rules_of group) }
{
    match group {
        Group::Step1a => &GROUP_1A,
        Group::Step1b => &GROUP_1B,
        Group::FollowUp => &FOLLOW_UP,
        Group::Step1c => &GROUP_1C,
        Group::Step2 => &GROUP_2,
        Group::Step3 => &GROUP_3,
        Group::Step4 => &GROUP_4,
        Group::Step5a => &GROUP_5A,
        Group::Step5b => &GROUP_5B,
    }
}
