// The memory of a register: sums with it are made in 64 bits.
ghost use Rattle.std.specs.Prelude.{◌^◌, ◌≤◌, nat_abs};
ghost use Rattle.integers.specs.Numbers.{Decides};

// 2^30: a memory is at most this, either way
const MOST: u64 = 1 << 30;

// Whether a memory is from -2^30 to 2^30.
pub fn in_range(m: i64) -> bool
    ensures { Decides (nat_abs m ≤ 2 ^ 30) result }
{
    m.unsigned_abs() <= MOST
}
