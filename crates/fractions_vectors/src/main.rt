// Runs the output word, and with it the limits, on edge values. The expected output comes from tests/vectors/fractions.py.
#![tactic(auto)]

use fractions::Fraction;
use refusals::Numbered;

fn print_word(p: i32, q: u32) {
    show::word(b"word");
    show::field(p);
    show::field(q);
    match (Fraction { p, q }).output_word() {
        Ok(u) => {
            show::field(u);
        }
        Err(refusal) => {
            show::word(b" refused");
            show::field(refusal.number());
        }
    }
    show::line_end();
}

// One p with the q at the edges: 1, 3, 37, the largest inside, and those outside.
fn print_words(p: i32) {
    for q in [
        1, 3, 37, 1073741823, 0, 2, 1073741822, 1073741824, 1073741825, 4294967295,
    ] {
        print_word(p, q);
    }
}

fn main() {
    for p in [
        0,
        1,
        -1,
        12345,
        -12345,
        1073741823,
        -1073741823,
        1073741824,
        -1073741824,
        2147483647,
        -2147483648,
    ] {
        print_words(p);
    }
}
