// Signed numbers: the two operations that the other crates share. Not entry points: the callers of `with_sign` in other crates show its bound.
ghost use Rattle.std.specs.Prelude.{◌≡◌, ◌^◌, ◌<◌};
ghost use Rattle.integers.specs.Numbers.{signed_by, half_z};

// Half of it, rounded down: half of -1 is -1.
pub fn half(a: i64) -> i64
    ensures { result ≡ half_z a }
{
    a >> 1
}

// The number of that size and sign.
pub fn with_sign(size: u64, minus: bool) -> i64
    requires { size < 2 ^ 62 }
    ensures { result ≡ signed_by minus size }
{
    let z = size as i64;
    if minus { -z } else { z }
}
