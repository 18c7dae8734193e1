// Bytes and bits: reading one, and testing that no bit stands past a count. The contracts cite Bits of specs/.
#![tactic(auto)]

ghost use Rattle.std.specs.Prelude.{◌≡◌, ◌<◌, ◌^◌, get_or, ltb};
ghost use Rattle.bits.specs.Bits.{num, bit_at};

// A byte, 0 past the end.
pub fn byte_at(bytes: &[u8], j: usize) -> usize
    ensures { (result ≡ get_or bytes.now j 0) × (result < 256) }
{
    bytes.get(j).map_or(0, |&byte| usize::from(byte))
}

// Bit i, 0 past the end.
pub fn bit_at(bytes: &[u8], i: usize) -> usize
    ensures { result ≡ bit_at bytes.now i }
{
    (byte_at(bytes, i / 8) >> (i % 8)) % 2
}

// Whether no bit at or past the count is set: the number of the bytes, lowest first, is below 2 to the count.
pub fn clear_past(bytes: &[u8], count: usize) -> bool
    ensures { result ≡ ltb (num 256 bytes.now) (2 ^ count) }
{
    // no bit of the bytes before this one is at or past the count
    let from = count / 8;
    if bytes.len() <= from {
        return true;
    }
    bytes[from] >> (count % 8) == 0 && bytes[from + 1..].iter().all(|&byte| byte == 0)
}
