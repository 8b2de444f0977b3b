// A space as long as such an argument may be. It is made here, so that no proof that uses one has all of its zeros in sight.

// 70,000 bytes: a text, or an exception list.
pub fn of_text() -> [u8; 70000] {
    [0; 70000]
}
