// The period table against document 001's table 2, and at its edges.
#![tactic(auto)]

ghost use Rattle.std.specs.Prelude.{◌<◌};

// The number of the answer, and its period.
fn print_entry(q: u32) {
    let entry = periods::period(q);
    show::number(q);
    show::field(refusals::number_of(entry));
    show::field(entry.unwrap_or(0));
    show::line_end();
}

// Is the period q - 1?
fn is_longest(q: u32) -> bool {
    periods::period(q).is_ok_and(|t| u64::from(t) + 1 == u64::from(q))
}

// A length r, and the q with floor(log2(q+1)) = r, from 2^r - 1 on, whose period is q - 1.
fn print_length(r: u32, first: u32, next: u32) {
    show::number(r);
    for q in (first..next).filter(|&q| is_longest(q)) {
        show::field(q);
    }
    show::line_end();
}

fn main() {
    for (r, first, next) in [
        (2, 3, 7),
        (3, 7, 15),
        (4, 15, 31),
        (5, 31, 63),
        (6, 63, 127),
        (7, 127, 255),
        (8, 255, 511),
    ] {
        print_length(r, first, next);
    }
    for q in [0, 1, 2, 3, 383, 1021, 1022, 1023, 1024, 1025, 4294967295] {
        print_entry(q);
    }
}
