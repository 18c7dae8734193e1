// The digits of an expansion, one by one, and what is left of the numerator.
ghost use Rattle.std.specs.Prelude.{◌≡◌, ◌^◌, ◌≤◌, ◌<◌, nat_abs};
ghost use Rattle.integers.specs.Numbers.{odd_z};
ghost use Rattle.fractions.specs.Expansion.{next_num, iter_num, digits_to};

use integers::signed::half;

// An expansion p/q, by what is still to come of it.
#[derive(Clone, Copy)]
pub struct Expansion {
    pub p: i64,
    pub q: u32,
    pub ghost p_small: { nat_abs p ≤ 2 ^ 61 },
    pub ghost q_small: { q < 2 ^ 30 },
}

// The digits taken off so far, first digit lowest, and the numerator after them.
#[derive(Clone, Copy)]
pub struct Digits {
    pub bits: u32,
    pub rest: i64,
}

impl Expansion {
    // Takes the next digit off: 1 where the numerator is odd, and then q comes off it before it is halved. By a branch: a product of digit and q is slower.
    fn next(&mut self) -> u32
        ensures digit { result ≡ odd_z self.old.p }
        ensures p { self.new.p ≡ next_num self.old.q self.old.p }
        ensures q { self.new.q ≡ self.old.q }
    {
        let odd = self.p & 1 == 1;
        let taken = if odd { self.q } else { 0 };
        self.p = half(self.p - i64::from(taken));
        u32::from(odd)
    }

    // The first n digits, and the numerator after them.
    pub fn first_digits(mut self, n: u32) -> Digits
        requires { n ≤ 30 }
        ensures { (result.bits ≡ digits_to self.q n self.p) × (result.rest ≡ iter_num self.q n self.p) }
    {
        let mut bits = 0;
        for i in 0..n {
            bits += self.next() << i;
        }
        Digits { bits, rest: self.p }
    }
}
