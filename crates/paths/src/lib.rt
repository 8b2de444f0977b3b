// The numbers of a table, its nodes, and the paths that a word's and an ending's letters take through them. Any numbers may be given:
// where the table has no number, 0 is read, and a node that it does not have holds no rule and has no child.
#![tactic(auto)]

ghost use Rattle.std.specs.Prelude.{◌≡◌, ◌<◌, ◌^◌, get_or, IfSome};
ghost use Rattle.paper.specs.Letters.{inward};
ghost use Rattle.walks.specs.Walk.{deepest as deepest_of, reached, held};
ghost use Rattle.paths.specs.Children.{child as child_of, named, handed, nodes_in};

// The number at a place of the table.
pub fn number_at(table: &[u16], place: usize) -> usize
    ensures { (result ≡ get_or table.now place 0) × (result < 65536) }
{
    table.get(place).map_or(0, |number| usize::from(*number))
}

// The child of this letter, if the node has one: 01's 0 names none. No more children are looked at than the node has, and none behind a
// greater letter.
pub fn child(table: &[u16], parent: usize, letter: usize) -> Option<usize>
    ensures value { result ≡ named (child_of table.now parent letter) }
    ensures upper_bound { IfSome result (λ at. at < 131072) }
{
    if table.len() <= parent {
        return None;
    }
    let first = number_at(table, 4 * parent + 1);
    let count = number_at(table, 4 * parent + 2);
    for at in first..first + count {
        let here = number_at(table, 4 * at);
        if letter <= here {
            return (letter == here && at != 0).then_some(at);
        }
    }
    None
}

// The rule that the deepest node passed holds, of those that hold one, when the word's letters are followed from the root.
pub fn deepest(table: &[u16], root: usize, word: &[u8]) -> usize
    ensures { result ≡ deepest_of (nodes_in table.now) root (inward word.now) }
{
    if table.len() <= root {
        return 0;
    }
    let mut at = root;
    let mut found = number_at(table, 4 * root + 3);
    for letter in word.iter().rev() {
        let Some(next) = child(table, at, usize::from(*letter)) else {
            return found;
        };
        at = next;
        let rule = number_at(table, 4 * at + 3);
        if rule != 0 {
            found = rule;
        }
    }
    found
}

// The node to which an ending's letters lead from a root, if they lead to one.
pub fn follow(table: &[u16], root: usize, ending: &[u8]) -> Option<usize>
    ensures value { result ≡ handed (reached (nodes_in table.now) root ending.now) }
    ensures upper_bound { root < 2 ^ 62 → IfSome result (λ at. at < 2 ^ 62) }
{
    let mut at = root;
    for letter in ending.iter().rev() {
        at = child(table, at, usize::from(*letter))?;
    }
    Some(at)
}

// The rule that the node holds to which an ending's letters lead from the root, 0 for none.
pub fn held_at(table: &[u16], root: usize, ending: &[u8]) -> usize
    ensures { result ≡ held (nodes_in table.now) (reached (nodes_in table.now) root ending.now) }
{
    if table.len() <= root {
        return 0;
    }
    let Some(at) = follow(table, root, ending) else {
        return 0;
    };
    number_at(table, 4 * at + 3)
}
