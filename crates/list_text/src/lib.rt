// All that the listing program prints for a block, as one text. The contract cites Prints of specs/.
#![tactic(auto)]

ghost use Rattle.list_text.specs.Prints.{Prints};

use arrayvec::ArrayString;
use refusals::Numbered;

// The most bytes that a listing takes: 40 for the header, and a line for each meter.
pub const TEXT: usize = 40 + records::METERS * listing::LINE;

// The listing of a block.
pub fn print(block: &[u8]) -> ArrayString<TEXT>
    ensures { Prints block.now result.bytes }
{
    let mut out = ArrayString::new();
    let mut store = [0u8; places::STORE_SIZE];
    if let Err(refusal) = store::take(&mut store, block) {
        out.push_str(&listing::refused(refusal.number(), refusal.place()));
        return out;
    }
    out.push_str(listing::header());
    for meter in 1..=records::METERS as u32 {
        out.push_str(&listing::line(&store, meter));
    }
    out
}
