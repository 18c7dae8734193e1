// The order of two pairs of sizes. Not an entry point: its callers show that the pairs fit.
ghost use Rattle.reduction.specs.Vectors.{Ordered};

// Does the pair of sizes (a, b) stand before (c, d), or is it the same? Size first, then a, then b: ties are settled here.
pub fn ordered(a: u64, b: u64, c: u64, d: u64) -> bool
    ensures { Ordered a b c d result }
{
    (a.max(b), a, b) <= (c.max(d), c, d)
}
