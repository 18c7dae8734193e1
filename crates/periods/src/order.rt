// The order of two modulo an odd number, found fast: Euler's function is a multiple of it, and each prime is divided out of that
// as often as may be.
ghost use Rattle.std.specs.Prelude.{◌≡◌, ◌-◌, ◌%◌, ◌^◌, ◌≤◌, ◌<◌};
ghost use Rattle.integers.specs.Numbers.{Decides};
ghost use Rattle.periods.specs.Orders.{UnitPower, Order};
ghost use Rattle.periods.specs.Finding.{Without, Lowered};

// An odd number below 2^30, so that the square of a remainder, doubled, fits 64 bits.
#[derive(Clone, Copy)]
struct Modulus {
    c: u32,
    ghost odd: { c % 2 ≡ 1 },
    ghost small: { c < 2 ^ 30 },
}

impl Modulus {
    // 2^e mod c, by squaring.
    fn power(self, e: u32) -> u32
        ensures { result ≡ 2 ^ e % self.c }
    {
        let c = u64::from(self.c);
        let mut r = 1 % c;
        for i in (0..u32::BITS - e.leading_zeros()).rev() {
            r = r * r * u64::from(1 + (e >> i) % 2) % c;
        }
        r as u32
    }

    // Is 2^(c - 1) = 1 mod c, as for each odd prime c?
    fn is_like_prime(self) -> bool
        ensures { Decides (UnitPower self.c (self.c - 1)) result }
    {
        1 < self.c && self.power(self.c - 1) == 1
    }

    // A multiple of the order: Euler's function of c, by trial division, but that what is left counts as a prime as soon as it is
    // like one, which spares the way to its root. A prime is like one, so that nothing is left where the loop ends.
    fn totient(self) -> u32
        ensures { UnitPower self.c result }
    {
        if self.is_like_prime() {
            return self.c - 1;
        }
        let mut m = self;
        let mut n = self.c;
        let mut l: u32 = 3;
        // no `for`: how far l goes is told by what is left, and it stays where it divides
        while l <= m.c / l {
            if m.c % l == 0 {
                n = n / l * (l - 1);
                m = Modulus { c: without(m.c, l) };
                if m.is_like_prime() {
                    return n / m.c * (m.c - 1);
                }
            } else {
                l += 2;
            }
        }
        n
    }

    // t with l divided out of it for as long as 2^t stays 1 mod c.
    fn lowered(self, t: u32, l: u32) -> u32
        requires { (2 ≤ l) × (1 ≤ t) }
        ensures { Lowered self.c t l result }
    {
        let one = 1 % self.c;
        let mut r = t;
        while r % l == 0 {
            if self.power(r / l) != one {
                return r;
            }
            r /= l;
        }
        r
    }

    // The order of two mod c, from an n with 2^n = 1: each prime factor of n, by trial division, is divided out as often as may be.
    fn order_from(self, n: u32) -> u32
        requires { UnitPower self.c n }
        ensures { Order self.c result }
    {
        let mut t = n;
        let mut m = n;
        let mut l: u32 = 2;
        // no `for`, as in `totient`, and no loop with it: where l begins and how it goes on, what a divisor does and when it is done all differ
        while l <= m / l {
            if m % l == 0 {
                t = self.lowered(t, l);
                m = without(m, l);
            } else {
                l += 1 + l % 2;
            }
        }
        if 1 < m { self.lowered(t, m) } else { t }
    }
}

// m with l divided out of it as often as may be.
fn without(m: u32, l: u32) -> u32
    requires { (2 ≤ l) × (1 ≤ m) }
    ensures { Without m l result }
{
    let mut r = m;
    while r % l == 0 {
        r /= l;
    }
    r
}

// The order of two mod c. Not an entry point: its callers in other crates show that c is odd and below 2^30. At most 16,391 turns
// of trial division for c, up to its root, and 16,393 for the multiple; then 47 powers or fewer, of at most 30 squarings each.
pub fn of_two(c: u32) -> u32
    requires { (c % 2 ≡ 1) × (c < 2 ^ 30) }
    ensures { Order c result }
{
    let c = Modulus { c };
    c.order_from(c.totient())
}
