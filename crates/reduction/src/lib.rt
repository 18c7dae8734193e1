// The reduced basis: among all pairs that fit the first bits of a burst, the least with q odd, carried along bit by bit with no division.
// `start` and one `turn` for each bit; `search` does so for the first n bits. The contracts cite Vectors and Reduced of specs/.
#![tactic(auto)]

ghost use Rattle.std.specs.Prelude.{◌≡◌, ◌^◌, ◌≤◌, pos, ◌*ℤ◌, unsigned_abs};
ghost use Rattle.integers.specs.Numbers.{half_z};
ghost use Rattle.reduction.specs.Vectors.{vect, plus, minus, past, rest, Within};
ghost use Rattle.reduction.specs.Reduced.{big, Pick, Turned, Started, After};

pub mod order; // order.rt: which of two pairs stands first

use integers::signed::half;
use std::ops::{Add, Sub};

// A pair with its rest: p = A q + 2^k rest, A the value of the first k bits. How large its values are stands in clauses and not in the type: each sum may take a bit
// more, and a const argument that says how many cannot be computed.
#[derive(Clone, Copy)]
pub struct Vector {
    pub p: i64,
    pub q: i64,
    pub rest: i64,
}

// f has q even, g has q odd, and together they span every pair that fits.
#[derive(Clone, Copy)]
pub struct State {
    pub f: Vector,
    pub g: Vector,
}

// `+` and `-` differ in their operators alone; they are two traits of the language.
impl Add for Vector {
    type Output = Vector;

    ghost can_add = { λ g f. Within (2 ^ 61) (vect g) × Within (2 ^ 61) (vect f) };

    ghost add_gives = { λ g f r. vect r ≡ plus (vect g) (vect f) };

    fn add(self, f: Vector) -> Vector {
        Vector {
            p: self.p + f.p,
            q: self.q + f.q,
            rest: self.rest + f.rest,
        }
    }
}

impl Sub for Vector {
    type Output = Vector;

    ghost can_sub = { λ g f. Within (2 ^ 61) (vect g) × Within (2 ^ 61) (vect f) };

    ghost sub_gives = { λ g f r. vect r ≡ minus (vect g) (vect f) };

    fn sub(self, f: Vector) -> Vector {
        Vector {
            p: self.p - f.p,
            q: self.q - f.q,
            rest: self.rest - f.rest,
        }
    }
}

impl Vector {
    // Past a bit: rest - bit q in the rest's place, even where the pair fits one bit more.
    fn past(self, bit: usize) -> Vector
        requires { Within (2 ^ 60) (vect self) × (bit ≤ 1) }
        ensures { vect result ≡ past (pos bit) (vect self) }
    {
        if bit == 0 {
            self
        } else {
            Vector {
                rest: self.rest - self.q,
                ..self
            }
        }
    }

    fn doubled(self) -> Vector
        requires { (unsigned_abs self.p ≤ 2 ^ 61) × (unsigned_abs self.q ≤ 2 ^ 61) }
        ensures { vect result ≡ record (vect self) { p = pos 2 *ℤ self.p; q = pos 2 *ℤ self.q } }
    {
        Vector {
            p: 2 * self.p,
            q: 2 * self.q,
            ..self
        }
    }

    fn halved(self) -> Vector
        ensures { vect result ≡ rest (vect self) (half_z self.rest) }
    {
        Vector {
            rest: half(self.rest),
            ..self
        }
    }

    // The one with the smaller key.
    fn smaller(self, other: Vector) -> Vector
        ensures { Pick big (vect self) (vect other) (vect result) }
    {
        let (a, b) = (self.p.unsigned_abs(), self.q.unsigned_abs());
        let (c, d) = (other.p.unsigned_abs(), other.q.unsigned_abs());
        if order::ordered(a, b, c, d) {
            self
        } else {
            other
        }
    }
}

impl State {
    // The state before any bit: the pairs (1, 0) and (0, 1).
    pub fn start() -> State
        ensures { Started result }
    {
        State {
            f: Vector {
                p: 1,
                q: 0,
                rest: 1,
            },
            g: Vector {
                p: 0,
                q: 1,
                rest: 0,
            },
        }
    }

    // One bit more. Not an entry point: its callers in other crates show that the state is one of at most 60 bits.
    pub fn turn(self, bit: usize) -> State
        requires { Within (2 ^ 60) (vect self.f) × Within (2 ^ 60) (vect self.g) × (bit ≤ 1) }
        ensures { Turned (pos bit) (vect self.f) (vect self.g) (vect result.f) (vect result.g) }
    {
        let f = self.f.past(bit);
        let g = self.g.past(bit);
        let s = (g + f).smaller(g - f);
        if g.rest % 2 == 0 {
            State {
                f: f.smaller(s).doubled(),
                g: g.halved(),
            }
        } else {
            State {
                f: f.smaller(g).doubled(),
                g: s.halved(),
            }
        }
    }
}

// The state after the first n bits. Not an entry point: its callers in other crates show that n is at most 61, so that 64 bits hold every number.
pub fn search(bytes: &[u8], n: usize) -> State
    requires { n ≤ 61 }
    ensures { After bytes.now n result }
{
    let mut x = State::start();
    for i in 0..n {
        x = x.turn(bits::bit_at(bytes, i));
    }
    x
}
