// Runs taking blocks, by the cases on standard input. tests/vectors/store.py writes them and what is expected.
//
// A case: the bytes of the store that are changed beforehand, so that it is fresh again, or broken; a name; a block. After the cases, whose number comes
// first, there are one of a store that lacks a byte and one of a store with a byte too many.
#![tactic(auto)]

const SHORT: usize = places::STORE_SIZE - 1;

const LONG: usize = places::STORE_SIZE + 1;

// The longest block of a case.
const BLOCK: usize = records::BLOCK_BYTES + 2;

// Each meter that has bits, and how many.
fn print_counts(bytes: &[u8]) {
    for (place, meter) in bytes.chunks(places::PLACE_SIZE).zip(1..=records::METERS) {
        let [high, low, ..] = place else {
            continue;
        };
        let count = u16::from_be_bytes([*high, *low]);
        if count != 0 {
            show::number(meter);
            show::field(count);
            show::line_end();
        }
    }
}

// One case: its name, the number and the place of the answer, and the store afterwards, by a checksum of all its bytes and by its counts.
fn take(bytes: &mut [u8]) {
    cases::change(bytes);
    cases::name();
    let mut block = [0u8; BLOCK];
    let n = cases::bytes(&mut block);
    let answer = store::take(bytes, &block[..n]);
    show::field(refusals::number_of(answer));
    show::field(store::place(answer));
    show::checksum_field(bytes);
    show::line_end();
    print_counts(bytes);
}

fn main() {
    let mut bytes = [0u8; places::STORE_SIZE];
    for _ in 0..cases::word() {
        take(&mut bytes);
    }
    take(&mut [0; SHORT]);
    take(&mut [0; LONG]);
}
