// Runs loading, stepping, reading back and the sheet, by the cases on standard input. tests/vectors/registers.py writes them and what is expected.
//
// A case: its name; p, q, cells and memory. The pair (p, q) is loaded, and the register (q, cells, memory) goes to every entry point that takes one.
#![tactic(auto)]

use fractions::Fraction;
use refusals::{Numbered, number_of};
use registers::{Invalid, LoadRefusal, ReadRefusal, Register, Stepped};
use storage::StorageSheet;

fn print_number<T: Copy, E: Numbered>(answer: Result<T, E>) {
    show::field(number_of(answer));
}

fn print_load(answer: Result<Register, LoadRefusal>) {
    print_number(answer);
    if let Ok(g) = answer {
        show::register(g);
    }
}

fn print_step(answer: Stepped) {
    print_number(answer.bit);
    if let Ok(bit) = answer.bit {
        show::field(bit);
    }
    show::register(answer.register);
}

fn print_read_back(answer: Result<Fraction, ReadRefusal>) {
    print_number(answer);
    if let Ok(f) = answer {
        show::field(f.p);
        show::field(f.q);
    }
}

fn print_sheet(answer: Result<StorageSheet, Invalid>) {
    print_number(answer);
    if let Ok(sheet) = answer {
        show::field(sheet.cells);
        show::field(sheet.memory_bits);
    }
}

fn print_answers(p: i32, g: Register) {
    print_load(registers::load(Fraction { p, q: g.q }));
    show::comma();
    print_step(registers::step(g));
    show::comma();
    print_read_back(registers::read_back(g));
    show::comma();
    print_sheet(storage::sheet(g));
    show::line_end();
}

fn run() {
    cases::name();
    let p = cases::signed();
    print_answers(p, cases::register());
}

fn main() {
    for _ in 0..cases::word() {
        run();
    }
}
