// Runs whitening over the cases on standard input. tests/vectors/whitening.py writes them and what is expected.
//
// A case: its name; the bytes; q, cells and memory.
#![tactic(auto)]

use registers::Register;

// Prints the refusal, the register afterwards, and a checksum of the bytes afterwards.
fn whiten(register: Register, bytes: &mut [u8]) {
    let w = whitening::whiten_by(register, bytes);
    show::field(refusals::number_of(w.done));
    show::register(w.register);
    show::checksum_field(bytes);
    show::line_end();
}

fn run() {
    cases::name();
    let mut bytes = [0u8; 513];
    let n = cases::bytes(&mut bytes);
    whiten(cases::register(), &mut bytes[..n]);
}

fn main() {
    for _ in 0..cases::word() {
        run();
    }
}
