// Whether a table's nodes are a forest laid out by levels, and of how many nodes. Any numbers may be given.
#![tactic(auto)]

ghost use Rattle.std.specs.Prelude.{◌*◌, ◌<◌, ◌≤◌, length};
ghost use Rattle.forests.specs.Shapes.{Told, Most, Bare, Rises, ShapedAs};

// How many nodes a table of so many numbers may have.
fn most_nodes(numbers: usize) -> usize
    ensures { Most numbers result }
{
    (numbers / 4).min(1552)
}

// Whether the roots have letter 0.
fn roots_bare(table: &[u16], roots: usize) -> bool
    requires { 4 * roots ≤ length table.now }
    ensures { Told (Bare table.now roots) result }
{
    for k in 0..roots {
        if table[4 * k] != 0 {
            return false;
        }
    }
    true
}

// Whether the nodes from `first` on, up to `end`, rise in their letters.
fn rising(table: &[u16], first: usize, end: usize) -> bool
    requires first_lt_end { first < end }
    requires end_in_bounds { 4 * end ≤ length table.now }
    ensures { Told (Rises table.now first end) result }
{
    let mut last = table[4 * first];
    for k in first + 1..end {
        let here = table[4 * k];
        if here <= last {
            return false;
        }
        last = here;
    }
    true
}

// The number of nodes, if the table's are a forest laid out by levels with so many roots. The nodes are seen once, in their order; with
// each, the letters of its children. Nothing is read behind the nodes that a table may have, so no single read is checked.
pub fn shape_of(table: &[u16], roots: usize) -> Option<usize>
    ensures { ShapedAs table.now roots result }
{
    let most = most_nodes(table.len());
    if most < roots {
        return None;
    }
    if !roots_bare(table, roots) {
        return None;
    }
    let mut i = 0;
    let mut next = roots;
    // no range to go over: the nodes to be seen grow with the children of those that were
    while i < next {
        let first = usize::from(table[4 * i + 1]);
        let count = usize::from(table[4 * i + 2]);
        if count == 0 {
            if first != 0 {
                return None;
            }
        } else {
            let end = next + count;
            if most < end {
                return None;
            }
            if first != next {
                return None;
            }
            if !rising(table, next, end) {
                return None;
            }
            next = end;
        }
        i += 1;
    }
    Some(i)
}
