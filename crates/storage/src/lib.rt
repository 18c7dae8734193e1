// The storage sheet of a register: the cells and the memory bits that a meter must have for it. The contract cites Storage of specs/.
#![tactic(auto)]

ghost use Rattle.std.specs.Prelude.{◌≡◌, ◌^◌, ◌<◌};
ghost use Rattle.std.specs.Int.Signed.{mag};
ghost use Rattle.integers.specs.Numbers.{Least};
ghost use Rattle.registers.specs.Registers.{cell_count};
ghost use Rattle.storage.specs.Storage.{Both, MemoryBits, Sheets, sheet_number, sheet_cells, sheet_bits};

use registers::{Invalid, Register, ValidRegister};
use taps::sums;

// The number of cells and the bits of memory that a meter must have.
#[derive(Clone, Copy)]
pub struct StorageSheet {
    pub cells: u32,
    pub memory_bits: u32,
}

// The number of bits of n: 0 for 0.
fn bit_length(n: u32) -> u32
    ensures { Least (λ k. n < 2 ^ k) result }
{
    u32::BITS - n.leading_zeros()
}

// What a signed width must hold past its sign bit: m itself, or -(m + 1) where m is negative, so that -4 takes no more room than 3.
fn past_sign(m: i32) -> u32
    ensures { result ≡ mag m }
{
    let size = m.unsigned_abs();
    if m < 0 { size - 1 } else { size }
}

// The least signed width that holds both m and k: a sign bit, and the bits of the larger.
fn signed_width(m: i32, k: u32) -> u32
    ensures { Least (Both m k) result }
{
    bit_length(past_sign(m).max(k)) + 1
}

// The storage sheet of a valid register: the cells, and the bits that hold its memory now and after any number of steps (the law memory_fits).
// Not an entry point: its callers in other crates have a valid register.
pub fn sheet_of(v: ValidRegister) -> StorageSheet
    ensures { (result.cells ≡ cell_count v.register.q) × MemoryBits v.register result.memory_bits }
{
    let Register { q, memory, .. } = v.register;
    let most = (q + 1).count_ones() - 1;
    StorageSheet {
        cells: sums::cell_count(q),
        memory_bits: signed_width(memory, most),
    }
}

// The storage sheet, or refusal 5.
pub fn sheet(g: Register) -> Result<StorageSheet, Invalid>
    ensures { Sheets g (sheet_number result) (sheet_cells result) (sheet_bits result) }
{
    Ok(sheet_of(ValidRegister::try_from(g)?))
}
