// The check: does a pair fit all n bits? Up to 32 bits at a time: the pair goes on where 2^m divides rest - w q, w the next m bits, and its new rest is that divided by 2^m.
ghost use Rattle.std.specs.Prelude.{◌≤◌};
ghost use Rattle.bits.specs.Bits.{value};
ghost use Rattle.fractions.specs.Pairs.{Inside, Fits};
ghost use Rattle.integers.specs.Numbers.{Decides};
ghost use Rattle.learning.specs.Learning.{longest};

use fractions::Fraction;

pub fn fits(bytes: &[u8], n: usize, x: Fraction) -> bool
    requires { (n ≤ longest) × Inside x.p x.q }
    ensures { Decides (Fits n (value bytes.now n) x.p x.q) result }
{
    let q = i64::from(x.q);
    // what is left of p: p = A q + 2^i rest, A the value of the first i bits
    let mut rest = i64::from(x.p);
    for i in (0..n).step_by(32) {
        let m = (n - i).min(32);
        let d = rest - packing::bits_from(bytes, i, m) as i64 * q;
        if d.unsigned_abs() % (1 << m) != 0 {
            return false;
        }
        rest = d >> m;
    }
    true
}
