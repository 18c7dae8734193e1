// Numbers alone: what the other crates count with. The contracts cite Numbers of specs/.
#![tactic(auto)]

ghost use Rattle.std.specs.Prelude.{◌≡◌, ◌*◌, ◌%◌, ◌^◌, ◌<◌};
ghost use Rattle.integers.specs.Numbers.{IsGcd};
ghost use Rattle.integers.specs.Inner.{Newton};

pub mod signed; // signed.rt: the few operations on signed numbers

const HALF: u64 = 1 << 32;

// The greatest common divisor of a and b, 0 where both are 0. Each remainder is smaller than the last, so it ends.
pub fn gcd(a: u64, b: u64) -> u64
    ensures { IsGcd a b result }
{
    if b == 0 { a } else { gcd(b, a % b) }
}

// The product of two numbers of 32 bits, which fits 64.
fn product(a: u64, b: u64) -> u64
    requires { (a < 2 ^ 32) × (b < 2 ^ 32) }
    ensures { result ≡ a * b }
{
    a * b
}

// a b modulo 2^64, by halves of 32 bits: the product of the upper halves is a multiple of 2^64 and drops out. Not the library's `wrapping_mul`: a wrapping
// product of its own is one of the forms that the scope names (docs/DECISIONS.md, "The named forms").
pub fn wrapping_mul(a: u64, b: u64) -> u64
    ensures { result ≡ a * b % 2 ^ 64 }
{
    let low_a = a % HALF;
    let low_b = b % HALF;
    let cross = product(a / HALF, low_b) % HALF + product(low_a, b / HALF) % HALF;
    product(low_a, low_b).wrapping_add(cross % HALF * HALF)
}

// x (2 - q x) modulo 2^64: where q x is 1 modulo K, q times it is 1 modulo K K.
fn newton(q: u64, x: u64) -> u64
    ensures { Newton q x result }
{
    wrapping_mul(x, 2u64.wrapping_sub(wrapping_mul(q, x)))
}

// The inverse of an odd q modulo 2^64. q itself is right modulo 4, and each step doubles the bits that are right.
// Not an entry point: its callers in other crates show that q is odd.
pub fn inverse(q: u64) -> u64
    requires { q % 2 ≡ 1 }
    ensures { q * result % 2 ^ 64 ≡ 1 }
{
    let a = newton(q, q);
    let b = newton(q, a);
    let c = newton(q, b);
    let d = newton(q, c);
    newton(q, d)
}
