// The sums over the taps. Digit k of q + 1 is the tap q_k, for k at least 1.
ghost use Rattle.std.specs.Prelude.{◌≡◌, ◌+◌, ◌*◌, ◌^◌, ◌≤◌, ◌<◌};
ghost use Rattle.integers.specs.Numbers.{log2};
ghost use Rattle.taps.specs.Sums.{parts_to, taps_to, over_to};

// The number of cells, r = floor(log2(q + 1)).
pub fn cell_count(q: u32) -> u32
    requires { q < 2 ^ 30 }
    ensures { result ≡ log2 (q + 1) }
{
    (q + 1).ilog2()
}

// Cells as a number with a_0 lowest, r of them, and the q whose taps lie over them.
#[derive(Clone, Copy)]
pub struct Cells {
    pub q: u32,
    pub cells: u32,
    pub r: u32,
    pub ghost q_small: { q < 2 ^ 30 },
    pub ghost few: { r ≤ 30 },
}

impl Cells {
    // q_1 w_(r-1) + .. + q_r w_0, where w_i is the BITS bits of the cells from bit i on.
    fn over_taps<const BITS: u32>(self) -> u64
        requires { BITS ≤ 32 }
        ensures { (result ≡ parts_to BITS self.q self.cells self.r self.r) × (result ≤ self.r * 2 ^ BITS) }
    {
        let mut sum = 0;
        for k in 1..=self.r {
            let tap = u64::from((self.q + 1) >> k) % 2;
            let part = u64::from(self.cells >> (self.r - k)) % (1 << BITS);
            sum += tap * part;
        }
        sum
    }

    // q_1 a_(r-1) + .. + q_r a_0
    pub fn tap_sum(self) -> u32
        ensures { (result ≡ taps_to self.q self.cells self.r self.r) × (result ≤ self.r) }
    {
        self.over_taps::<1>() as u32
    }

    // q_1 floor(a / 2^(r-1)) + .. + q_r floor(a / 1), a being the cells: what of the product a·(q + 1) lies above the double sum y.
    pub fn overflow(self) -> u64
        ensures { (result ≡ over_to self.q self.cells self.r self.r) × (result < 2 ^ 40) }
    {
        self.over_taps::<32>()
    }
}
