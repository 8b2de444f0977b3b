// Bytes as numbers.
#![tactic(auto)]

ghost use Rattle.std.specs.Prelude.{◌≡◌, ◌+◌, ◌*◌, ◌<◌};

// "numbers are little-endian": the number of two bytes.
pub fn pair(low: u8, high: u8) -> usize
    ensures value { result ≡ low + 256 * high }
    ensures upper_bound { result < 65536 }
{
    usize::from(u16::from_le_bytes([low, high]))
}
