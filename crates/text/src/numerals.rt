// Numbers read from text, in decimal digits. The contract cites Numerals of specs/.
ghost use Rattle.text.specs.Numerals.{Says};

use std::str;

// The number below 2^32 that the bytes say in decimal digits, leading zeros too; a sign or a space is no digit.
pub fn parsed(digits: &[u8]) -> Option<u32>
    ensures { Says digits.now result }
{
    // the library's `parse` takes a plus
    if digits.starts_with(b"+") {
        return None;
    }
    str::from_utf8(digits).ok()?.parse().ok()
}
