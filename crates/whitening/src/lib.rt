// Whitening: bytes combined with what a register emits. The contracts cite Whitening of specs/.
#![tactic(auto)]

ghost use Rattle.std.specs.Prelude.{◌≡◌, ◌*◌, length};
ghost use Rattle.std.specs.Int.{w32, from_le_bytes, to_le_bytes};
ghost use Rattle.std.specs.Int.Bits.{bit_xor};
ghost use Rattle.refusals.specs.Refusals.{field_of};
ghost use Rattle.registers.specs.Registers.{iter_of};
ghost use Rattle.whitening.specs.Whitening.{refusal_number, number_of, white_of, Whitens};
ghost use Rattle.whitening.specs.declared.Refusal.TheVariants as Reason;

mod expansion;

use expansion::Expansion;
use refusals::Numbered;
use registers::{Register, ValidRegister};

// The most bytes to whiten in one call.
pub const MOST: usize = 512;

// The register is not valid; more than MOST bytes.
#[derive(Clone, Copy, PartialEq, Eq)]
pub enum Refusal {
    Invalid,
    TooLong,
}

impl Numbered for Refusal {
    ghost number = { refusal_number };

    fn number(self) -> u32 {
        match self {
            Refusal::Invalid => 5,
            Refusal::TooLong => 9,
        }
    }
}

impl From<registers::Invalid> for Refusal {
    ghost from_gives = { λ _ r. r ≡ Reason.Invalid };

    fn from(_e: registers::Invalid) -> Self {
        Self::Invalid
    }
}

// Whether the bytes were whitened, and the register afterwards.
#[derive(Clone, Copy)]
pub struct Whitened {
    pub done: Result<(), Refusal>,
    pub register: Register,
}

// Four bytes with 32 digits.
fn mix_word(word: &mut [u8], digits: u32)
    requires { length word.old ≡ 4 }
    ensures { word.new ≡ to_le_bytes w32 (bit_xor (from_le_bytes w32 word.old) digits) }
{
    let mixed = u32::from_le_bytes(*word.as_array().unwrap()) ^ digits;
    word.copy_from_slice(&mixed.to_le_bytes());
}

// The bytes whitened, 32 digits of the register's expansion at a time and then 8, and the register after them.
fn whiten_valid(v: ValidRegister, bytes: &mut [u8]) -> ValidRegister
    ensures { (result.register ≡ iter_of (8 * length bytes.old) v.register) × (bytes.new ≡ white_of v.register bytes.old) }
{
    let mut left = Expansion::new(v);
    let words = bytes.len() / 4;
    // By an index: of `as_chunks_mut`, `chunks_exact_mut` and a loop over `split_first_chunk_mut` it is not proved what the bytes end as
    for i in 0..words {
        mix_word(
            &mut bytes[4 * i..4 * i + 4],
            left.next_digits::<32>() as u32,
        );
    }
    for byte in &mut bytes[4 * words..] {
        *byte ^= left.next_digits::<8>() as u8;
    }
    left.register()
}

// The register after the bytes, which are whitened; or the refusal, and then they are as they were.
fn register_after(register: Register, bytes: &mut [u8]) -> Result<Register, Refusal>
    ensures { Whitens register bytes.old (number_of result) (field_of register (λ g. g) result) bytes.new }
{
    let valid = ValidRegister::try_from(register)?;
    if MOST < bytes.len() {
        return Err(Refusal::TooLong);
    }
    Ok(whiten_valid(valid, bytes).register)
}

// Each byte combined by exclusive or with the next eight bits that the register emits, and the register after them. A register that is not
// valid is refused with 5, more than MOST bytes with 9; then the bytes are as they were, and the register comes back as it was given.
pub fn whiten_by(register: Register, bytes: &mut [u8]) -> Whitened
    ensures { Whitens register bytes.old (number_of result.done) result.register bytes.new }
{
    match register_after(register, bytes) {
        Ok(next) => Whitened {
            done: Ok(()),
            register: next,
        },
        Err(refusal) => Whitened {
            done: Err(refusal),
            register,
        },
    }
}

// The same on the caller's register, which is left stepped eight times for each byte.
pub fn whiten(register: &mut Register, bytes: &mut [u8]) -> Result<(), Refusal>
    ensures { Whitens register.old bytes.old (number_of result) register.new bytes.new }
{
    let t = whiten_by(*register, bytes);
    *register = t.register;
    t.done
}
