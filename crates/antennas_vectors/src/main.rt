// Runs the two-antenna reader, by the cases on standard input. tests/vectors/antennas.py writes them and what is expected.
//
// A case: its name; the first antenna's block and the second's; the meter and the ordinal.
#![tactic(auto)]

use antennas::{Refusal, Seen};

// The longest block of a case.
const BLOCK: usize = records::BLOCK_BYTES + 7;

fn print_bytes(bytes: &[u8]) {
    for &byte in bytes {
        show::field(byte);
    }
}

// The number of the answer; then count, antenna, start and length of a record that was found, or the place of what is wrong with the first block.
fn print_about(answer: Result<Seen, Refusal>) {
    show::field(refusals::number_of(answer));
    match answer {
        Ok(seen) => {
            show::field(seen.count);
            show::field(u32::from(seen.antenna));
            show::field(seen.start);
            show::field(seen.length);
        }
        Err(Refusal::Malformed(refusal)) => show::field(refusal.place()),
        Err(Refusal::BadMeter | Refusal::NoRecord) => {}
    }
}

// What is told of the record, and the bytes of the part.
fn ask<'a>(first: &'a [u8], second: &'a [u8], meter: u32, ordinal: u32) {
    print_about(antennas::read_about(first, second, meter, ordinal));
    show::comma();
    print_bytes(antennas::read_part(first, second, meter, ordinal));
    show::line_end();
}

fn run() {
    cases::name();
    let mut first = [0u8; BLOCK];
    let n = cases::bytes(&mut first);
    let mut second = [0u8; BLOCK];
    let m = cases::bytes(&mut second);
    ask(&first[..n], &second[..m], cases::word(), cases::word());
}

fn main() {
    for _ in 0..cases::word() {
        run();
    }
}
