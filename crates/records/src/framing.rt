// The frame of the record at a place: "Records, each a two-byte body length, a two-byte kind, then the body". Any bytes and any
// place may be given.
ghost use Rattle.std.specs.Prelude.{◌≡◌, ◌≤◌, not, ◌||◌, eqb, length, IfSome};
ghost use Rattle.records.specs.Framing.{frame_at};

use numbers::pair;

// A record's kind, the place where its body starts and the place of the next record.
#[derive(Clone, Copy)]
pub struct Frame {
    pub kind: usize,
    pub body: usize,
    pub next: usize,
}

// The frame of the record that starts at this place. None where the bytes end before the record does.
pub fn frame_at(bytes: &[u8], at: usize) -> Option<Frame>
    ensures frame { result ≡ frame_at bytes.now at }
    ensures inside { IfSome result (λ f. (f.body ≤ f.next) × (f.next ≤ length bytes.now)) }
{
    let rest = bytes.get(at..)?;
    let [size_low, size_high, kind_low, kind_high, ..] = *rest else {
        return None;
    };
    let size = pair(size_low, size_high);
    if rest.len() - 4 < size {
        return None;
    }
    let kind = pair(kind_low, kind_high);
    let body = at + 4;
    let next = body + size;
    Some(Frame { kind, body, next })
}

// "an end with a body or with bytes after it", of a record whose body stands between these places.
pub fn faulty_end(bytes: &[u8], body: usize, next: usize) -> bool
    ensures { result ≡ not (eqb next body) || not (eqb next (length bytes.now)) }
{
    (next != body) | (next != bytes.len())
}
