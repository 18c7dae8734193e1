// The library's answers laid out flat, for the C interface alone: one `#[repr(C)]` struct for each kind of answer, the refusal's number first (C has no Result), and
// one `From` that lays an answer out, whatever the reasons are for which it may be refused. A function of the C interface is then a call of the library and a
// conversion. The contracts cite Flat of specs/.
#![tactic(auto)]

ghost use Rattle.std.specs.Prelude.{◌≡◌};
ghost use Rattle.flat.specs.Flat.{flat_fraction, flat_loaded, flat_stepped, flat_sheet, flat_walked, flat_lookup, flat_output, flat_taken, flat_about, NarrowPlace, NarrowRecord};

use antennas::Seen;
use refusals::{Numbered, number_of};
use registers::Register;
use storage::StorageSheet;
use walking::Way;

// A pair, learned or read back.
#[repr(C)]
#[derive(Clone, Copy, Default)]
pub struct Fraction {
    pub refusal: u32,
    pub p: i32,
    pub q: u32,
}

// A loaded register.
#[repr(C)]
#[derive(Clone, Copy, Default)]
pub struct Loaded {
    pub refusal: u32,
    pub state: Register,
}

// The emitted bit, and the register after the step.
#[repr(C)]
#[derive(Clone, Copy, Default)]
pub struct Stepped {
    pub refusal: u32,
    pub bit: u32,
    pub state: Register,
}

// Lead-in, period, and the two together.
#[repr(C)]
#[derive(Clone, Copy, Default)]
pub struct Walked {
    pub refusal: u32,
    pub lead: u32,
    pub period: u32,
    pub sum: u32,
}

// The storage that a register needs.
#[repr(C)]
#[derive(Clone, Copy, Default)]
pub struct Storage {
    pub refusal: u32,
    pub cells: u32,
    pub memory_bits: u32,
}

// An entry of the period table.
#[repr(C)]
#[derive(Clone, Copy, Default)]
pub struct Entry {
    pub refusal: u32,
    pub period: u32,
}

// The first 64 bits that a pair gives.
#[repr(C)]
#[derive(Clone, Copy, Default)]
pub struct Word {
    pub refusal: u32,
    pub word: u64,
}

// How a block was taken.
#[repr(C)]
#[derive(Clone, Copy, Default)]
pub struct Taken {
    pub refusal: u32,
    pub place: u32,
}

// A record of two antennas' blocks: its bits, its antenna, and the part of that antenna's block that holds them.
#[repr(C)]
#[derive(Clone, Copy, Default)]
pub struct Read {
    pub refusal: u32,
    pub place: u32,
    pub count: u32,
    pub antenna: u32,
    pub start: u32,
    pub length: u32,
}

// A burst's fraction, a meter's, or a register's.
impl<E: Numbered> From<Result<fractions::Fraction, E>> for Fraction {
    ghost from_gives = { λ x r. r ≡ flat_fraction E.number x };

    fn from(answer: Result<fractions::Fraction, E>) -> Fraction {
        match answer {
            Ok(f) => Fraction {
                refusal: 0,
                p: f.p,
                q: f.q,
            },
            Err(e) => Fraction {
                refusal: e.number(),
                ..Fraction::default()
            },
        }
    }
}

// A loaded register, whole.
impl<E: Numbered> From<Result<Register, E>> for Loaded {
    ghost from_gives = { λ x r. r ≡ flat_loaded E.number x };

    fn from(answer: Result<Register, E>) -> Loaded {
        match answer {
            Ok(state) => Loaded { refusal: 0, state },
            Err(e) => Loaded {
                refusal: e.number(),
                ..Loaded::default()
            },
        }
    }
}

// A step. A register that is not valid comes back as it was given.
impl From<registers::Stepped> for Stepped {
    ghost from_gives = { λ x r. r ≡ flat_stepped x };

    fn from(answer: registers::Stepped) -> Stepped {
        Stepped {
            refusal: number_of(answer.bit),
            bit: answer.bit.unwrap_or(0),
            state: answer.register,
        }
    }
}

// A walk.
impl<E: Numbered> From<Result<Way, E>> for Walked {
    ghost from_gives = { λ x r. r ≡ flat_walked E.number x };

    fn from(answer: Result<Way, E>) -> Walked {
        match answer {
            Ok(way) => Walked {
                refusal: 0,
                lead: way.lead_in,
                period: way.period,
                sum: way.sum,
            },
            Err(e) => Walked {
                refusal: e.number(),
                ..Walked::default()
            },
        }
    }
}

// A storage sheet.
impl<E: Numbered> From<Result<StorageSheet, E>> for Storage {
    ghost from_gives = { λ x r. r ≡ flat_sheet E.number x };

    fn from(answer: Result<StorageSheet, E>) -> Storage {
        match answer {
            Ok(sheet) => Storage {
                refusal: 0,
                cells: sheet.cells,
                memory_bits: sheet.memory_bits,
            },
            Err(e) => Storage {
                refusal: e.number(),
                ..Storage::default()
            },
        }
    }
}

// An entry of the period table.
impl<E: Numbered> From<Result<u32, E>> for Entry {
    ghost from_gives = { λ x r. r ≡ flat_lookup E.number x };

    fn from(answer: Result<u32, E>) -> Entry {
        match answer {
            Ok(period) => Entry { refusal: 0, period },
            Err(e) => Entry {
                refusal: e.number(),
                ..Entry::default()
            },
        }
    }
}

// An output word.
impl<E: Numbered> From<Result<u64, E>> for Word {
    ghost from_gives = { λ x r. r ≡ flat_output E.number x };

    fn from(answer: Result<u64, E>) -> Word {
        match answer {
            Ok(word) => Word { refusal: 0, word },
            Err(e) => Word {
                refusal: e.number(),
                ..Word::default()
            },
        }
    }
}

// The answer to taking a block. Not an entry point, and no `From`, which could not ask that the place fits 32 bits, as that of every block that is taken or refused does.
pub fn from_taken(answer: Result<(), store::Refusal>) -> Taken
    requires { NarrowPlace answer }
    ensures { result ≡ flat_taken answer }
{
    Taken {
        refusal: number_of(answer),
        place: store::place(answer) as u32,
    }
}

// The answer to reading one record out of two antennas' blocks. Not an entry point, and no `From` for the same reason: its sizes and positions must fit 32 bits, as every answer's do.
pub fn from_about(answer: Result<Seen, antennas::Refusal>) -> Read
    requires { NarrowRecord answer }
    ensures { result ≡ flat_about answer }
{
    match answer {
        Ok(seen) => Read {
            refusal: 0,
            place: 0,
            count: seen.count as u32,
            antenna: u32::from(seen.antenna),
            start: seen.start as u32,
            length: seen.length as u32,
        },
        Err(e) => Read {
            refusal: e.number(),
            place: e.place() as u32,
            ..Read::default()
        },
    }
}
