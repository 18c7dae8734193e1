// The line that the program `read` prints for one question, as a text. The contract cites Line of specs/.
#![tactic(auto)]

ghost use Rattle.std.specs.Prelude.{◌≡◌, ◌+◌, ◌*◌, ◌++◌, ◌<◌, ◌≤◌, length};
ghost use Rattle.reading.specs.Line.{hex_digit, hex_of, line_size, Tells};

use antennas::Refusal;
use arrayvec::ArrayString;
use refusals::Numbered;

// The most bytes that a line takes.
pub const LINE: usize = 150;

// A hexadecimal digit, by the sum that `hex_digit` of specs/ says; the library's `from_digit` answers small letters, in an `Option`.
fn digit(n: u8) -> char
    requires { n < 16 }
    ensures value { result ≡ hex_digit n }
    ensures ascii { result < 128 }
{
    char::from(if n < 10 { b'0' + n } else { b'A' + (n - 10) })
}

// Two digits for each byte, the high one first.
fn hex(out: &mut ArrayString<LINE>, bytes: &[u8])
    requires { length out.old.bytes + 2 * length bytes.now ≤ line_size }
    ensures { out.new.bytes ≡ out.old.bytes ++ hex_of bytes.now }
{
    for &byte in bytes {
        out.push(digit(byte / 16));
        out.push(digit(byte % 16));
    }
}

// The line, without its line end.
pub fn line<'a>(first: &'a [u8], second: &'a [u8], meter: u32, ordinal: u32) -> ArrayString<LINE>
    ensures { Tells first.now second.now meter ordinal result.bytes }
{
    let mut out = ArrayString::new();
    let about = antennas::read_about(first, second, meter, ordinal);
    let part = antennas::read_part(first, second, meter, ordinal);
    match about {
        Ok(seen) => {
            phrases::head(&mut out, u32::from(seen.antenna), seen.count as u32);
            hex(&mut out, part);
        }
        Err(refusal) => match refusal {
            Refusal::Malformed(form) => phrases::placed(&mut out, form.number(), form.place()),
            Refusal::BadMeter | Refusal::NoRecord => phrases::refused(&mut out, refusal.number()),
        },
    }
    out
}
