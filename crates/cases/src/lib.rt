// Reading cases from standard input, for the programs that run values: what they share. Numbers stand lowest byte first. Past the end of the
// input everything is 0. No contract can say what is read; those here say all else: which number the bytes are, how many were put where, and that no
// other byte has changed. They cite Cases of specs/.
#![tactic(auto)]

ghost use Rattle.io.specs.Counts.{IsPrefixLen};
ghost use Rattle.cases.specs.Cases.{Put};

use registers::Register;

// Where bytes were put, and how many.
#[derive(Clone, Copy)]
pub struct Changed {
    pub at: usize,
    pub count: usize,
}

// The next N bytes.
fn read<const N: usize>() -> [u8; N] {
    let mut next = [0u8; N];
    io::read_full(0, &mut next);
    next
}

// The next four bytes.
pub fn word() -> u32 {
    u32::from_le_bytes(read())
}

// The next eight bytes.
pub fn number() -> u64 {
    u64::from_le_bytes(read())
}

// The next four bytes, in two's complement.
pub fn signed() -> i32 {
    i32::from_le_bytes(read())
}

// A register: q, its cells and its memory.
pub fn register() -> Register {
    let q = word();
    let cells = word();
    Register {
        q,
        cells,
        memory: signed(),
    }
}

// The next four bytes, cut to the length of `bytes`: how many of them, or where among them.
pub fn within(bytes: &[u8]) -> usize
    ensures { IsPrefixLen result bytes.now }
{
    bytes.len().min(word() as usize)
}

// A length in four bytes, then as many bytes, put at the start of `out`; answers how many there are. Each comes by way of a byte of its own: of bytes that are
// lent to a system call nothing is known afterwards, also of those that it did not reach.
// Into lent bytes, and no vector of its own, since `change` puts them into a part of bytes that are there.
pub fn bytes(out: &mut [u8]) -> usize
    ensures prefix_len { IsPrefixLen result out.new }
    ensures put { Put out.old 0 result out.new }
{
    let n = within(out);
    let mut next = [0u8; 1];
    for (i, slot) in out[..n].iter_mut().enumerate() {
        if io::read_full(0, &mut next) == 0 {
            return i;
        }
        *slot = next[0];
    }
    n
}

// A position in four bytes, then bytes as above, put there; answers where, and how many.
pub fn change(out: &mut [u8]) -> Changed
    ensures { Put out.old result.at result.count out.new }
{
    let at = within(out);
    let count = bytes(&mut out[at..]);
    Changed { at, count }
}

// The bytes of a name, printed as they are.
pub fn name() {
    let mut letters = [0u8; 64];
    let n = bytes(&mut letters);
    io::write_all(1, &letters[..n]);
}
