// Bits in bytes, many at a time: reading a window of them, and appending them. Not entry points: their callers in other crates show that the window is small, and
// that there is room. The contracts cite Bits of the crate `bits`, and Inner of specs/.
#![tactic(auto)]

ghost use Rattle.std.specs.Prelude.{◌≡◌, ◌+◌, ◌*◌, ◌<◌, ◌≤◌, ◌%◌, ◌^◌, length, get_or, set};
ghost use Rattle.bits.specs.Bits.{num, digits, window};
ghost use Rattle.packing.specs.Inner.{five_from, WordFits, MoreFits};

// The lowest m bits of x.
fn low(x: usize, m: usize) -> usize
    requires { m < 64 }
    ensures { result ≡ x % 2 ^ m }
{
    x % (1 << m)
}

// Five bytes as one number, lowest first.
fn joined(bytes: [u8; 5]) -> usize
    ensures { (result ≡ five_from bytes 0) × (result < 2 ^ 40) }
{
    let [a, b, c, d, e] = bytes;
    usize::from_le_bytes([a, b, c, d, e, 0, 0, 0])
}

// Those from byte j on, zeros past the end. Where all five are there, none is tested for; by a slice's pattern it takes twice the instructions.
fn five_from(bytes: &[u8], j: usize) -> usize
    requires { j < 2 ^ 62 }
    ensures { (result ≡ five_from bytes.now j) × (result < 2 ^ 40) }
{
    if j + 5 <= bytes.len() {
        return joined([
            bytes[j],
            bytes[j + 1],
            bytes[j + 2],
            bytes[j + 3],
            bytes[j + 4],
        ]);
    }
    let at = |k: usize| bytes.get(j + k).map_or(0, |&byte| byte);
    joined([at(0), at(1), at(2), at(3), at(4)])
}

// Bits i to i + m - 1, zeros past the end. Not an entry point: its callers in other crates show that m is small.
pub fn bits_from(bytes: &[u8], i: usize, m: usize) -> usize
    requires { (i < 2 ^ 62) × (m ≤ 32) }
    ensures { result ≡ window bytes.now i m }
{
    let all = five_from(bytes, i / 8);
    let k = i % 8;
    low(all >> k, m)
}

// Adds a word of two bytes at byte i. By `to_le_bytes` both bytes are made first, and taking a block costs a quarter more.
fn add_word(bytes: &mut [u8], i: usize, w: u16)
    requires { WordFits bytes.old i w }
    ensures { (length bytes.new ≡ length bytes.old) × (num 256 bytes.new ≡ num 256 bytes.old + 256 ^ i * w) }
{
    bytes[i] += (w % 256) as u8;
    let high = (w / 256) as u8;
    if high != 0 {
        bytes[i + 1] += high;
    }
}

// Adds the bits of `more` to `bytes`, which hold `have` bits. Not an entry point: its callers in other crates show that there is room.
pub fn add_bits(bytes: &mut [u8], have: usize, more: &[u8])
    requires { MoreFits bytes.old have more.now }
    ensures { bytes.new ≡ digits 256 (length bytes.old) (num 256 bytes.old + 2 ^ have * num 256 more.now) }
{
    let from = have / 8;
    let shift = have % 8;
    for (j, &byte) in more.iter().enumerate() {
        add_word(bytes, from + j, u16::from(byte) << shift);
    }
}
