// The walk of a register to its lead-in and period. The contracts cite Walks of specs/.
//
// No state is stepped. A register walks as its numerator does: outside -q .. 0 the distance to it at least halves with each step, so that
// the lead-in takes at most some 61 turns on a number; from inside, as many steps come round as the order of two modulo the
// denominator in lowest terms.
#![tactic(auto)]

ghost use Rattle.std.specs.Prelude.{◌≡◌, ◌+◌, ◌%◌, ◌^◌, ◌≤◌, ◌<◌, nat_abs};
ghost use Rattle.walking.specs.Walks.{refusal_number, Loops, states_of, Walks, number_of, lead_in_of, period_of, sum_of};
ghost use Rattle.walking.specs.Inner.{dist, nearer, Enters};
ghost use Rattle.walking.specs.declared.Refusal.TheVariants as Reason;

use refusals::Numbered;
use registers::{Register, ValidRegister};

// Lead-in and period, and their sum.
#[derive(Clone, Copy, PartialEq, Eq)]
pub struct Way {
    pub lead_in: u32,
    pub period: u32,
    pub sum: u32,
}

// The register is not valid; the sum exceeds the allowance.
#[derive(Clone, Copy, PartialEq, Eq)]
pub enum Refusal {
    Invalid,
    Past,
}

impl Numbered for Refusal {
    ghost number = { refusal_number };

    fn number(self) -> u32 {
        match self {
            Refusal::Invalid => 5,
            Refusal::Past => 6,
        }
    }
}

impl From<registers::Invalid> for Refusal {
    ghost from_gives = { λ _ r. r ≡ Reason.Invalid };

    fn from(_e: registers::Invalid) -> Self {
        Self::Invalid
    }
}

// How far p stands outside -q .. 0.
fn distance(q: u32, p: i64) -> u64
    ensures { result ≡ dist q p }
{
    let size = p.unsigned_abs();
    if 0 < p {
        size
    } else {
        size.saturating_sub(u64::from(q))
    }
}

// The distance one step later.
fn step_nearer(q: u32, d: u64) -> u64
    ensures { result ≡ nearer q d }
{
    if d % 2 == 0 {
        d / 2
    } else {
        d.saturating_sub(u64::from(q)) / 2
    }
}

// The first step inside -q .. 0.
fn lead_in(q: u32, p: i64) -> u32
    requires { (q % 2 ≡ 1) × (nat_abs p < 2 ^ 61) }
    ensures { (result ≤ 61) × Enters q p result }
{
    let mut d = distance(q, p);
    let mut n: u32 = 0;
    // No `for`: n is the answer, not an index; `successors(..).take(62).position(..)` would need a bound, an `unwrap` and a cast
    while 0 < d {
        d = step_nearer(q, d);
        n += 1;
    }
    n
}

// The way of a valid register, whatever the allowance.
fn way_of(v: ValidRegister) -> Way
    ensures { (result.sum ≡ result.lead_in + result.period) × Loops (states_of v.register) result.lead_in result.period }
{
    let q = v.register.q;
    let p = v.numerator();
    let lowest = fractions::lowest_terms(p, u64::from(q));
    let lead_in = lead_in(q, p);
    let period = periods::order::of_two(lowest.q as u32);
    Way {
        lead_in,
        period,
        sum: lead_in + period,
    }
}

// The walk of a register: lead-in, period and their sum, where that is within the allowance.
pub fn walk(g: Register, allowance: u32) -> Result<Way, Refusal>
    ensures { Walks g allowance (number_of result) (lead_in_of result) (period_of result) (sum_of result) }
{
    let way = way_of(ValidRegister::try_from(g)?);
    if allowance < way.sum {
        Err(Refusal::Past)
    } else {
        Ok(way)
    }
}
