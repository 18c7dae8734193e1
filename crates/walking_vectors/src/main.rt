// Runs walks over the cases on standard input, and prints the number, lead-in, period and sum of each answer. tests/vectors/walking.py writes the cases and
// what is expected.
//
// A case: its name; q, cells and memory; the allowance.
#![tactic(auto)]

use walking::{Refusal, Way};

fn report(answer: Result<Way, Refusal>) {
    show::field(refusals::number_of(answer));
    if let Ok(way) = answer {
        show::field(way.lead_in);
        show::field(way.period);
        show::field(way.sum);
    }
    show::line_end();
}

fn run() {
    cases::name();
    let register = cases::register();
    report(walking::walk(register, cases::word()));
}

fn main() {
    for _ in 0..cases::word() {
        run();
    }
}
