// Fractions p/q: the limits, lowest terms, and the output word. The contracts cite Pairs, Expansion and Answers of specs/.
#![tactic(auto)]

ghost use Rattle.std.specs.Prelude.{◌^◌, ◌<◌, ◌≤◌, unsigned_abs};
ghost use Rattle.integers.specs.Numbers.{Decides};
ghost use Rattle.fractions.specs.Pairs.{Inside};
ghost use Rattle.fractions.specs.Answers.{Outputs, refusal_number, number_of, word_of};
ghost use Rattle.fractions.specs.Inner.{Residue, Reduced};

// The largest q, and the largest |p|, inside the limits.
pub const LIMIT: u32 = 1073741823;

// 32 bits for p and q: the limits leave two bits spare, and the firmware that calls has 32-bit words.
#[derive(Clone, Copy)]
pub struct Fraction {
    pub p: i32,
    pub q: u32,
}

// A fraction on its way to the limits: numerators of registers, and sums, are wider than the pairs that they reduce to.
#[derive(Clone, Copy)]
pub struct Ratio {
    pub p: i64,
    pub q: u64,
}

// Refusal 4: the pair is outside the limits.
#[derive(Clone, Copy, PartialEq, Eq)]
pub struct Outside;

impl refusals::Numbered for Outside {
    ghost number = { refusal_number };

    fn number(self) -> u32 {
        4
    }
}

// p modulo 2^64, so that a negative p enters wrapping arithmetic as its residue.
fn residue(p: i32) -> u64
    ensures { Residue p result }
{
    i64::from(p).cast_unsigned()
}

impl Fraction {
    // Whether the pair is inside the limits.
    pub fn is_inside(self) -> bool
        ensures { Decides (Inside self.p self.q) result }
    {
        self.q % 2 == 1 && self.q <= LIMIT && self.p.unsigned_abs() <= LIMIT
    }

    // The first 64 output bits of p/q as one number, first bit lowest: u with u q - p divisible by 2^64.
    pub fn output_word(self) -> Result<u64, Outside>
        ensures { Outputs self.p self.q (number_of result) (word_of result) }
    {
        if self.is_inside() {
            Ok(integers::wrapping_mul(residue(self.p), integers::inverse(u64::from(self.q))))
        } else {
            Err(Outside)
        }
    }
}

// p/q in lowest terms; zero is (0, 1). Not an entry point: its callers in other crates show that q is not 0 and p fits.
pub fn lowest_terms(p: i64, q: u64) -> Ratio
    requires { (1 ≤ q) × (unsigned_abs p < 2 ^ 62) }
    ensures { Reduced p q result.p result.q }
{
    let size = p.unsigned_abs();
    let d = integers::gcd(size, q);
    Ratio {
        p: integers::signed::with_sign(size / d, p < 0),
        q: q / d,
    }
}
