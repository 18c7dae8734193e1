// The guess: Euclid's algorithm on 2^61 and the first 61 bits, down to the first remainder inside the limit. No other fraction inside the limits can fit.
ghost use Rattle.std.specs.Prelude.{◌≡◌, ◌^◌, ◌<◌};
ghost use Rattle.bits.specs.Bits.{value};
ghost use Rattle.learning.specs.Steps.{Guessed};

use fractions::Ratio;

const LIMIT: u64 = fractions::LIMIT as u64;

pub fn first61(bytes: &[u8]) -> u64
    ensures { (result ≡ value bytes.now 61) × (result < 2 ^ 61) }
{
    let low = packing::bits_from(bytes, 0, 32);
    let high = packing::bits_from(bytes, 32, 29);
    (low + (high << 32)) as u64
}

// A remainder p with its cofactor q: q times the bits is p modulo 2^61. The remainders' signs alternate: t0 times the bits is -r0, t1 times them r1.
// Two halves of a turn, on numbers without a sign: with `/` and `%` of i64 a burst of 61 bits costs a quarter more.
pub fn euclid(a: u64) -> Ratio
    requires { a < 2 ^ 61 }
    ensures { Guessed a result.p result.q }
{
    let (mut r0, mut t0) = (1u64 << 61, 0u64);
    let (mut r1, mut t1) = (a, 1u64);
    loop {
        if r1 <= LIMIT {
            return Ratio {
                p: r1 as i64,
                q: t1,
            };
        }
        t0 += r0 / r1 * t1;
        r0 %= r1;
        if r0 <= LIMIT {
            return Ratio {
                p: -(r0 as i64),
                q: t0,
            };
        }
        t1 += r1 / r0 * t0;
        r1 %= r0;
    }
}
