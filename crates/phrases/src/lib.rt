// The phrases that both programs print, each appended to a text of fixed room: numbers with the space behind them, and refusals. The contracts cite Phrases
// of specs/, and say how much longer the text is at most, so that a caller shows room by a sum. None is an entry point: callers in other crates show it.
#![tactic(auto)]

ghost use Rattle.std.specs.Prelude.{◌≡◌, ◌++◌, ◌+◌, ◌≤◌, length};
ghost use Rattle.text.specs.Text.{decimal_of};
ghost use Rattle.phrases.specs.Phrases.{spaced, refused_text, placed_text};

use arrayvec::ArrayString;
use itoa::{Buffer, Integer};

// A number of any type in decimal digits, "-" in front of a negative one, and the space behind it.
pub fn field<I: Integer, const CAP: usize>(out: &mut ArrayString<CAP>, n: I)
    requires { length out.old.bytes + I.MAX_STR_LEN + 1 ≤ CAP }
    ensures text { out.new.bytes ≡ out.old.bytes ++ spaced (I.text n) }
    ensures short { length out.new.bytes ≤ length out.old.bytes + I.MAX_STR_LEN + 1 }
{
    out.push_str(Buffer::new().format(n));
    out.push(' ');
}

// The two fields that a line begins with.
pub fn head<const CAP: usize>(out: &mut ArrayString<CAP>, first: u32, second: u32)
    requires { length out.old.bytes + 22 ≤ CAP }
    ensures text { out.new.bytes ≡ out.old.bytes ++ (spaced (decimal_of first) ++ spaced (decimal_of second)) }
    ensures short { length out.new.bytes ≤ length out.old.bytes + 22 }
{
    field(out, first);
    field(out, second);
}

// A refusal without a place.
pub fn refused<const CAP: usize>(out: &mut ArrayString<CAP>, number: u32)
    requires { length out.old.bytes + 18 ≤ CAP }
    ensures text { out.new.bytes ≡ out.old.bytes ++ refused_text number }
    ensures short { length out.new.bytes ≤ length out.old.bytes + 18 }
{
    out.push_str("refused ");
    out.push_str(Buffer::new().format(number));
}

// A refusal with its place.
pub fn placed<const CAP: usize>(out: &mut ArrayString<CAP>, number: u32, place: usize)
    requires { length out.old.bytes + 42 ≤ CAP }
    ensures text { out.new.bytes ≡ out.old.bytes ++ placed_text number place }
    ensures short { length out.new.bytes ≤ length out.old.bytes + 42 }
{
    refused(out, number);
    out.push_str(" at ");
    out.push_str(Buffer::new().format(place));
}
