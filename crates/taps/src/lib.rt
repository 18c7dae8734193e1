// What a register is made of, as numbers: the sums over its taps, the digits that its cells take, and its memory in sums. Not entry points: their callers in other
// crates show the bounds.
#![tactic(auto)]

pub mod digits; // digits.rt: the digits of an expansion, one by one
pub mod memory; // memory.rt: the memory in sums
pub mod sums; // sums.rt: the sums over the taps
