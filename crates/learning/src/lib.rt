// Learning: the smallest fraction whose bits begin as a burst does. The contract of `learn` cites Learning of specs/, which is in the document's words alone.
//
// Fewer than 61 bits are searched bit by bit (crate reduction). From 61 bits on two pairs inside the limits that fit are the same fraction, so a guess by
// Euclid's algorithm on the first 61 bits (guess) is right if it fits them all (tail), and if it is outside the limits or does not fit, no pair does.
#![tactic(auto)]

ghost use Rattle.std.specs.Prelude.{◌≤◌, ◌<◌, MatchOption};
ghost use Rattle.bits.specs.Bits.{value};
ghost use Rattle.fractions.specs.Pairs.{Smallest, NoneFits};
ghost use Rattle.learning.specs.Learning.{refusal_number, number_of, p_of, q_of, longest, Learns};

mod end;
mod guess;
mod tail;

use fractions::Fraction;
use refusals::Numbered;

// The longest burst, and how many bits decide.
const LONGEST: u64 = 4096;

const DECIDED: usize = 61;

// Why there is no fraction: refusals 1, 2 and 3.
#[derive(Clone, Copy, PartialEq, Eq)]
pub enum Refusal {
    CountTooLarge,
    TooFewBytes,
    NoneInside,
}

impl Numbered for Refusal {
    ghost number = { refusal_number };

    fn number(self) -> u32 {
        match self {
            Refusal::CountTooLarge => 1,
            Refusal::TooFewBytes => 2,
            Refusal::NoneInside => 3,
        }
    }
}

// A short burst: the least pair with q odd that fits, if it is inside the limits.
fn by_search(bytes: &[u8], n: usize) -> Option<Fraction>
    requires { n < 61 }
    ensures { MatchOption result (NoneFits n (value bytes.now n)) (λ x. Smallest n (value bytes.now n) x.p x.q) }
{
    let x = reduction::search(bytes, n);
    end::inside(end::finish(x.g, n))
}

// A long burst: the guess, if it is inside the limits and fits; else no pair does.
fn by_guess(bytes: &[u8], n: usize) -> Option<Fraction>
    requires { (61 ≤ n) × (n ≤ longest) }
    ensures { MatchOption result (NoneFits n (value bytes.now n)) (λ x. Smallest n (value bytes.now n) x.p x.q) }
{
    let x = end::inside(guess::euclid(guess::first61(bytes)))?;
    tail::fits(bytes, n, x).then_some(x)
}

// The smallest fraction that fits the first count bits, or refusal 1 (count above 4,096), 2 (fewer bytes than the count needs), 3 (no fitting pair inside the
// limits), in that order. Bits past the count and extra bytes have no effect.
pub fn learn(bytes: &[u8], count: u64) -> Result<Fraction, Refusal>
    ensures { Learns bytes.now count (number_of result) (p_of result) (q_of result) }
{
    if LONGEST < count {
        return Err(Refusal::CountTooLarge);
    }
    let n = count as usize;
    if bytes.len() < n.div_ceil(8) {
        return Err(Refusal::TooFewBytes);
    }
    let found = if n < DECIDED {
        by_search(bytes, n)
    } else {
        by_guess(bytes, n)
    };
    found.ok_or(Refusal::NoneInside)
}
