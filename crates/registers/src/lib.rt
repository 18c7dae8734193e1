// The register: step, load, read back. The contracts cite Registers and Answers of specs/.
#![tactic(auto)]

ghost use Rattle.std.specs.Prelude.{◌≡◌, ◌+◌, ◌-◌, ◌*◌, ◌/◌, ◌%◌, ◌^◌, ◌≤◌, ◌<◌, nat_abs, MatchResult};
ghost use Rattle.integers.specs.Numbers.{Decides};
ghost use Rattle.registers.specs.Registers.{Valid, next_of, num_of};
ghost use Rattle.registers.specs.Answers.{invalid_number, load_refusal_number, read_refusal_number};
ghost use Rattle.registers.specs.Answers.{Steps, step_number, step_bit, step_register};
ghost use Rattle.registers.specs.Answers.{Loads, load_number, load_register};
ghost use Rattle.registers.specs.Answers.{ReadsBack, read_number, read_p, read_q};
ghost use Rattle.registers.specs.declared.ReadRefusal.TheVariants as Read;
ghost use Rattle.registers.specs.Inner.{held, LoadsTo, StateOf, HasState};

use fractions::{Fraction, LIMIT};
use integers::signed::half;
use refusals::Numbered;
use taps::digits::Expansion;
use taps::memory;
use taps::sums::{Cells, cell_count};

// q, the cells a_0 to a_(r-1) as a number with a_0 lowest, and the memory. C's callers have the same struct.
#[repr(C)]
#[derive(Clone, Copy, Default)]
pub struct Register {
    pub q: u32,
    pub cells: u32,
    pub memory: i32,
}

// A register that is valid.
#[derive(Clone, Copy)]
pub struct ValidRegister {
    pub register: Register,
    pub ghost valid: { Valid register },
}

// Refusal 5: the register is not valid.
#[derive(Clone, Copy, PartialEq, Eq)]
pub struct Invalid;

// The emitted bit, or the refusal; and the register after the step, which is as it was given where it is refused.
#[derive(Clone, Copy)]
pub struct Stepped {
    pub bit: Result<u32, Invalid>,
    pub register: Register,
}

// Refusal 4, the pair is outside the limits, or 8, the memory would be too wide.
#[derive(Clone, Copy, PartialEq, Eq)]
pub enum LoadRefusal {
    Outside,
    Wide,
}

// Refusal 5, the register is not valid, or 7, the pair is outside the limits.
#[derive(Clone, Copy, PartialEq, Eq)]
pub enum ReadRefusal {
    Invalid,
    Outside,
}

impl Numbered for Invalid {
    ghost number = { invalid_number };

    fn number(self) -> u32 {
        5
    }
}

impl Numbered for LoadRefusal {
    ghost number = { load_refusal_number };

    fn number(self) -> u32 {
        match self {
            LoadRefusal::Outside => 4,
            LoadRefusal::Wide => 8,
        }
    }
}

impl Numbered for ReadRefusal {
    ghost number = { read_refusal_number };

    fn number(self) -> u32 {
        match self {
            ReadRefusal::Invalid => 5,
            ReadRefusal::Outside => 7,
        }
    }
}

impl From<Invalid> for ReadRefusal {
    ghost from_gives = { λ _ r. r ≡ Read.Invalid };

    fn from(_e: Invalid) -> Self {
        Self::Invalid
    }
}

// Whether the register is valid.
pub fn is_valid(g: Register) -> bool
    ensures { Decides (Valid g) result }
{
    g.q % 2 == 1
        && g.q <= LIMIT
        && g.cells < 1 << cell_count(g.q)
        && memory::in_range(i64::from(g.memory))
}

impl TryFrom<Register> for ValidRegister {
    type Error = Invalid;

    ghost try_from_gives = { λ g r. MatchResult r (λ v. v.register ≡ g) (λ _. ¬ (Valid g)) };

    fn try_from(g: Register) -> Result<Self, Invalid> {
        if is_valid(g) {
            Ok(ValidRegister { register: g })
        } else {
            Err(Invalid)
        }
    }
}

impl ValidRegister {
    // The register after one step.
    fn advance(self) -> ValidRegister
        ensures { result.register ≡ next_of self.register }
    {
        let Register { q, cells, memory } = self.register;
        let r = cell_count(q);
        let under = Cells { q, cells, r };
        let sum = i64::from(memory) + i64::from(under.tap_sum());
        let top = u32::from(sum & 1 == 1) << (r - 1);
        ValidRegister {
            register: Register {
                q,
                cells: cells / 2 + top,
                memory: half(sum) as i32,
            },
        }
    }

    // The numerator y - m 2^r. By the law y_over the double sum y is cells q - overflow 2^r, which needs one loop and not two.
    pub fn numerator(self) -> i64
        ensures { result ≡ num_of self.register }
    {
        let Register { q, cells, memory } = self.register;
        let r = cell_count(q);
        let under = Cells { q, cells, r };
        let product = u64::from(cells) * u64::from(q);
        product as i64 - (under.overflow() as i64 + i64::from(memory)) * (1 << r)
    }
}

// One step: the bit that it emits, and the register after it.
pub fn step(g: Register) -> Stepped
    ensures { Steps g (step_number result) (step_bit result) (step_register result) }
{
    match ValidRegister::try_from(g) {
        Ok(v) => Stepped {
            bit: Ok(g.cells % 2),
            register: v.advance().register,
        },
        Err(refusal) => Stepped {
            bit: Err(refusal),
            register: g,
        },
    }
}

// Cells and a memory that may still be too wide for a register.
#[derive(Clone, Copy)]
struct State {
    q: u32,
    cells: u32,
    memory: i64,
}

impl State {
    // The register, where the memory is not too wide.
    fn narrow(self) -> Register
        requires { nat_abs self.memory ≤ 2 ^ 30 }
        ensures { result ≡ held self }
    {
        Register {
            q: self.q,
            cells: self.cells,
            memory: self.memory as i32,
        }
    }
}

// What the rule for loading gives for p/q. With p = cells q + rest 2^r and y = cells q - overflow 2^r, (y - p)/2^r is -(rest + overflow).
fn state_of(whole: Expansion) -> State
    requires { whole.q % 2 ≡ 1 }
    ensures { LoadsTo whole.p whole.q result }
{
    let q = whole.q;
    let r = cell_count(q);
    let d = whole.first_digits(r);
    let under = Cells {
        q,
        cells: d.bits,
        r,
    };
    State {
        q,
        cells: d.bits,
        memory: -(d.rest + under.overflow() as i64),
    }
}

// The valid register of q whose numerator is p. Not an entry point: its callers in other crates show that there is one.
pub fn register_of(p: i64, q: u32) -> ValidRegister
    requires { HasState p q }
    ensures { StateOf p q result.register }
{
    let whole = Expansion { p, q };
    ValidRegister {
        register: state_of(whole).narrow(),
    }
}

// The register loaded from a pair, which need not be in lowest terms.
pub fn load(pair: Fraction) -> Result<Register, LoadRefusal>
    ensures { Loads pair.p pair.q (load_number result) (load_register result) }
{
    if !pair.is_inside() {
        return Err(LoadRefusal::Outside);
    }
    let whole = Expansion {
        p: i64::from(pair.p),
        q: pair.q,
    };
    let s = state_of(whole);
    if memory::in_range(s.memory) {
        Ok(s.narrow())
    } else {
        Err(LoadRefusal::Wide)
    }
}

// The register's numerator over q, in lowest terms.
pub fn read_back(g: Register) -> Result<Fraction, ReadRefusal>
    ensures { ReadsBack g (read_number result) (read_p result) (read_q result) }
{
    let v = ValidRegister::try_from(g)?;
    let t = fractions::lowest_terms(v.numerator(), u64::from(g.q));
    if t.p.unsigned_abs() <= u64::from(LIMIT) {
        Ok(Fraction {
            p: t.p as i32,
            q: t.q as u32,
        })
    } else {
        Err(ReadRefusal::Outside)
    }
}
