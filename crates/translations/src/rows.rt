// Storing the rows of a table, four numbers each.
ghost use Rattle.std.specs.Prelude.{◌≡◌, ◌+◌, ◌<◌, length, set};
ghost use Rattle.translations.specs.Storing.{put_row, put_each, how_many};

// Stores a number, if the list has this place.
pub(crate) fn put(list: &mut [u16], place: usize, number: usize)
    requires { number < 65536 }
    ensures { list.new ≡ set list.old place number }
{
    if place < list.len() {
        list[place] = number as u16;
    }
}

// Stores the four numbers of a row.
pub(crate) fn put_row(
    table: &mut [u16],
    row: usize,
    first: usize,
    second: usize,
    third: usize,
    fourth: usize,
)
    requires { (row < 65536) × ((first < 65536) × ((second < 65536) × ((third < 65536) × (fourth < 65536)))) }
    ensures { table.new ≡ put_row row first second third fourth table.old }
{
    let place = 4 * row;
    put(table, place, first);
    put(table, place + 1, second);
    put(table, place + 2, third);
    put(table, place + 3, fourth);
}

// Stores a row that is still to be finished for each end that is not 0, from the row `next` on. Returns the row behind them.
pub(crate) fn put_each(
    table: &mut [u16],
    next: usize,
    depth: usize,
    from: usize,
    ends: &[u16],
    before: usize,
) -> usize
    requires { (next + length ends.now < 65536) × ((depth < 65536) × ((from < 65536) × (before < 65536))) }
    ensures value { result ≡ next + how_many ends.now }
    ensures table_after { table.new ≡ put_each depth from before ends.now next table.old }
{
    let mut at = next;
    for &end in ends {
        if end != 0 {
            put_row(table, at, depth, from, usize::from(end), before);
            at += 1;
        }
    }
    at
}
