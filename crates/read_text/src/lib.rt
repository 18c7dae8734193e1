// All that the program `read` prints, from the text of its two numbers and the bytes of its two blocks, as one text. The contract cites Prints of specs/.
#![tactic(auto)]

ghost use Rattle.read_text.specs.Prints.{Prints, printed};

use arrayvec::ArrayString;
use text::numerals;

// The most bytes that are printed: a line and its line end.
pub const TEXT: usize = reading::LINE + 1;

// Which of the two texts is no number.
#[derive(Clone, Copy, PartialEq, Eq)]
pub enum NoNumber {
    Meter,
    Ordinal,
}

// What is printed for the texts METER and ORDINAL and the two antennas' blocks. Where one of the texts is no number, nothing is.
pub fn print<'a>(
    meter: &[u8],
    ordinal: &[u8],
    first: &'a [u8],
    second: &'a [u8],
) -> Result<ArrayString<TEXT>, NoNumber>
    ensures { Prints meter.now ordinal.now first.now second.now (printed result) }
{
    let number = numerals::parsed(meter).ok_or(NoNumber::Meter)?;
    let which = numerals::parsed(ordinal).ok_or(NoNumber::Ordinal)?;
    let mut out = ArrayString::new();
    out.push_str(&reading::line(first, second, number, which));
    out.push('\n');
    Ok(out)
}
