// The digits of a fraction p/q, many at a time.
ghost use Rattle.std.specs.Prelude.{◌≡◌, ◌≤◌, ◌<◌};
ghost use Rattle.fractions.specs.Expansion.{iter_num, digits_to};
ghost use Rattle.registers.specs.Inner.{HasState, StateOf};
ghost use Rattle.whitening.specs.Inner.{left_from};

use registers::ValidRegister;
use std::marker::Model;

// 2^62.
const OFFSET: u64 = 1 << 62;

// What is left of the expansion of p/q: the numerator p of the digits that are left, q, and the inverse of q. The numerator is carried as p + 2^62, so that
// division and remainder are those of natural numbers: p/w rounded down is a shift.
#[derive(Drop)]
pub struct Expansion {
    carried: u64,
    q: u64,
    inverse: u64,
}

impl Model for Expansion {
    ghost use Rattle.whitening.specs.Inner.{Left};

    ghost Value = { Left };

    ghost use Rattle.whitening.specs.Carrying.{left_of, Carries};

    ghost view = { left_of };

    ghost invariant = { Carries };
}

impl Expansion {
    // What a register emits from now on. Its numerator is below 2^61 in size.
    pub fn new(v: ValidRegister) -> Expansion
        ensures { result ≡ left_from v.register }
    {
        let p = v.numerator();
        let q = u64::from(v.register.q);
        Expansion {
            carried: (p + OFFSET as i64) as u64,
            q,
            inverse: integers::inverse(q) % (1 << 32),
        }
    }

    // The next N digits, the first lowest: the numerator times the inverse of q, modulo 2^N. It is inlined, and its divisions are shifts.
    pub fn next_digits<const N: u32>(&mut self) -> u64
        requires { (0 < N) × (N ≤ 32) }
        ensures digits { result ≡ digits_to self.old.q N self.old.p }
        ensures left { self.new ≡ record self.old { p = iter_num self.old.q N self.old.p } }
    {
        let w = 1 << N;
        let digits = self.carried % w * self.inverse % w;
        self.carried = self.carried / w + (OFFSET - OFFSET / w) - digits * self.q / w;
        digits
    }

    // The register of q whose numerator is left.
    pub fn register(self) -> ValidRegister
        requires { HasState self.p self.q }
        ensures { StateOf self.p self.q result.register }
    {
        registers::register_of(self.carried as i64 - OFFSET as i64, self.q as u32)
    }
}
