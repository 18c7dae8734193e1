// The end: with which sign is the least vector the answer, and is a pair inside the limits?
ghost use Rattle.std.specs.Prelude.{◌≡◌, ◌^◌, ◌<◌, MatchOption};
ghost use Rattle.fractions.specs.Pairs.{Inside};
ghost use Rattle.reduction.specs.Vectors.{vect, Within};
ghost use Rattle.learning.specs.Steps.{Finished};

use fractions::{Fraction, Ratio};
use reduction::Vector;

// The pair with q positive; where p and -p both fit, the written rule takes p not negative. Both fit, or neither, where 2^n divides 2 |p|.
pub fn finish(g: Vector, n: usize) -> Ratio
    requires { (n < 61) × Within (2 ^ 61) (vect g) }
    ensures { Finished n g.p g.q result.p result.q }
{
    let p = if 2 * g.p.unsigned_abs() % (1 << n) == 0 {
        g.p.abs()
    } else if g.q < 0 {
        -g.p
    } else {
        g.p
    };
    Ratio {
        p,
        q: g.q.unsigned_abs(),
    }
}

// The pair, if it is inside the limits.
pub fn inside(x: Ratio) -> Option<Fraction>
    ensures { MatchOption result (Inside x.p x.q → ⊥) (λ y. (y.p ≡ x.p) × (y.q ≡ x.q) × Inside y.p y.q) }
{
    let p = i32::try_from(x.p).ok()?;
    let q = u32::try_from(x.q).ok()?;
    let pair = Fraction { p, q };
    pair.is_inside().then_some(pair)
}
