// Runs `learn` over the cases on standard input, and prints the number of each answer, and p and q where it has a pair. tests/vectors/learning.py writes the
// cases and what is expected.
//
// A case: the count in eight bytes; the bytes.
#![tactic(auto)]

use fractions::Fraction;
use learning::Refusal;

fn report(answer: Result<Fraction, Refusal>) {
    show::number(refusals::number_of(answer));
    if let Ok(x) = answer {
        show::field(x.p);
        show::field(x.q);
    }
    show::line_end();
}

fn run() {
    let count = cases::number();
    let mut burst = [0u8; 520];
    let n = cases::bytes(&mut burst);
    report(learning::learn(&burst[..n], count));
}

fn main() {
    for _ in 0..cases::word() {
        run();
    }
}
