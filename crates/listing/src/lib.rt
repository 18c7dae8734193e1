// The listing: its header, the line of one meter and the line of a refused block, each as a text. The contracts cite Lines of specs/.
#![tactic(auto)]

ghost use Rattle.std.specs.Prelude.{◌≡◌, []};
ghost use Rattle.phrases.specs.Phrases.{placed_text};
ghost use Rattle.listing.specs.Lines.{Lines, row, header_text};

use arrayvec::ArrayString;
use by_meter::Refusal;

mod pieces; // pieces.rt: the parts of a line

// The most bytes that a line takes.
pub const LINE: usize = 96;

// The header line.
pub fn header() -> &'static str
    ensures { result.now ≡ header_text }
{
    "meter bits p q cells memory lead period\n"
}

// The line of a meter: empty where the meter has no bits, or the store or the meter is refused.
pub fn line(store: &[u8], meter: u32) -> ArrayString<LINE>
    ensures { Lines store.now meter result.bytes }
{
    let mut out = ArrayString::new();
    match by_meter::learn_meter(store, meter) {
        Ok(f) => {
            let count = places::bit_count(store, meter);
            if count != 0 {
                phrases::head(&mut out, meter, count);
                pieces::rest(&mut out, f);
            }
        }
        // no bits have a fraction, so here there are some
        Err(Refusal::NoneInside) => {
            phrases::head(&mut out, meter, places::bit_count(store, meter));
            out.push_str("none\n");
        }
        Err(Refusal::NotAStore) => {}
        Err(Refusal::BadMeter) => {}
    }
    out
}

// The line of a refused block.
pub fn refused(number: u32, place: usize) -> ArrayString<LINE>
    ensures { result.bytes ≡ row (placed_text number place) [] }
{
    let mut out = ArrayString::new();
    phrases::placed(&mut out, number, place);
    out.push('\n');
    out
}
