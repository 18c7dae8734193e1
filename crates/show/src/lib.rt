// Printing for programs: what they share. No contract can say what is written. What is computed for it has one: the text of a signed number is the library's, and
// `checksum` cites Checksums of specs/.
#![tactic(auto)]

ghost use Rattle.std.specs.Prelude.{◌≡◌};
ghost use Rattle.show.specs.Checksums.{checksum_of};

use itoa::{Buffer, Integer};
use registers::Register;

const STDOUT: i32 = 1;

const MODULUS: usize = 65521;

pub fn word(bytes: &[u8]) {
    io::write_all(STDOUT, bytes);
}

// A number of any type, in decimal.
pub fn number<I: Integer>(n: I) {
    word(Buffer::new().format(n).as_bytes());
}

// A space, then the number.
pub fn field<I: Integer>(n: I) {
    word(b" ");
    number(n);
}

// A register as three fields: q, its cells and its memory.
pub fn register(g: Register) {
    field(g.q);
    field(g.cells);
    field(g.memory);
}

// The marks that several programs print.
pub fn comma() {
    word(b",");
}

pub fn line_end() {
    word(b"\n");
}

// A number that a change of any one of the bytes changes.
pub fn checksum(bytes: &[u8]) -> usize
    ensures { result ≡ checksum_of bytes.now }
{
    let mut sum = 1;
    for &b in bytes {
        sum = (sum * 31 + usize::from(b)) % MODULUS;
    }
    sum
}

// A space, then the checksum of the bytes.
pub fn checksum_field(bytes: &[u8]) {
    field(checksum(bytes));
}
