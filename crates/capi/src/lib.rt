// The C interface: numbers, lent bytes and flat structs, for one static library. include/cocklejoist.h declares each function here; a slice is a pointer and a length
// there. Each but `cj_version` calls the library and has `flat` lay the answer out: the refusal's number first, 0 for none; on a refusal every other number is 0, but for a place and a
// register handed back, and nothing lent has changed. Each comment lists the refusals in the order in which they are tried. Where the buffers are as the header asks,
// every call is answered or refused. The contracts are the library's own relations between arguments and answers, at the fields, with Flat of specs/.
#![tactic(auto)]

ghost use Rattle.std.specs.Prelude.{◌≡◌};
ghost use Rattle.fractions.specs.Answers.{Outputs};
ghost use Rattle.learning.specs.Learning.{Learns};
ghost use Rattle.periods.specs.Answers.{Periods};
ghost use Rattle.registers.specs.Answers.{Steps, Loads, ReadsBack};
ghost use Rattle.storage.specs.Storage.{Sheets};
ghost use Rattle.by_meter.specs.ByMeter.{LearnsMeter};
ghost use Rattle.walking.specs.Walks.{Walks};
ghost use Rattle.whitening.specs.Whitening.{Whitens};
ghost use Rattle.capi.specs.Flat.{Takes, Reading};
ghost use Rattle.capi.specs.Version.{version};

use flat::{Entry, Fraction, Loaded, Read, Stepped, Storage, Taken, Walked, Word};
use refusals::number_of;
use registers::Register;

// 0.2.0, a byte to each part.
const VERSION: u32 = 0x000200;

// The version of this interface, so that a program can tell whether it was compiled with the header of the library that it is linked with.
#[unsafe(no_mangle)]
pub extern "C" fn cj_version() -> u32
    ensures { result ≡ version }
{
    VERSION
}

// The smallest fraction of the first `count` bits; further bits and bytes have no effect. Refuses 1, 2, 3.
#[unsafe(no_mangle)]
pub extern "C" fn cj_learn(bytes: &[u8], count: u64) -> Fraction
    ensures { Learns bytes.now count result.refusal result.p result.q }
{
    Fraction::from(learning::learn(bytes, count))
}

// The smallest fraction of the bits in a meter's place of the store. Refuses 10, 14, 3.
#[unsafe(no_mangle)]
pub extern "C" fn cj_learn_meter(store: &[u8], meter: u32) -> Fraction
    ensures { LearnsMeter store.now meter result.refusal result.p result.q }
{
    Fraction::from(by_meter::learn_meter(store, meter))
}

// The register's fraction, in lowest terms, q positive. Refuses 5, 7.
#[unsafe(no_mangle)]
pub extern "C" fn cj_read_back(r: Register) -> Fraction
    ensures { ReadsBack r result.refusal result.p result.q }
{
    Fraction::from(registers::read_back(r))
}

// The register that emits the bits of p/q, which need not be in lowest terms. Refuses 4, 8.
#[unsafe(no_mangle)]
pub extern "C" fn cj_load(p: i32, q: u32) -> Loaded
    ensures { Loads p q result.refusal result.state }
{
    Loaded::from(registers::load(fractions::Fraction { p, q }))
}

// One step: the emitted bit, and the register after it. Refuses 5, and the register comes back as it was given.
#[unsafe(no_mangle)]
pub extern "C" fn cj_step(r: Register) -> Stepped
    ensures { Steps r result.refusal result.bit result.state }
{
    Stepped::from(registers::step(r))
}

// Lead-in, period and their sum, where the sum is within the allowance. Refuses 5, 6.
#[unsafe(no_mangle)]
pub extern "C" fn cj_walk(r: Register, allowance: u32) -> Walked
    ensures { Walks r allowance result.refusal result.lead result.period result.sum }
{
    Walked::from(walking::walk(r, allowance))
}

// The storage sheet of a register: its cells, and the bits that hold its memory now and after any number of steps. Refuses 5.
#[unsafe(no_mangle)]
pub extern "C" fn cj_sheet(r: Register) -> Storage
    ensures { Sheets r result.refusal result.cells result.memory_bits }
{
    Storage::from(storage::sheet(r))
}

// The period table at q. Refuses 4: even q, 0, and q above 1,023.
#[unsafe(no_mangle)]
pub extern "C" fn cj_period(q: u32) -> Entry
    ensures { Periods q result.refusal result.period }
{
    Entry::from(periods::period(q))
}

// The first 64 bits of p/q, the first bit lowest. Refuses 4.
#[unsafe(no_mangle)]
pub extern "C" fn cj_output_word(p: i32, q: u32) -> Word
    ensures { Outputs p q result.refusal result.word }
{
    Word::from(fractions::Fraction { p, q }.output_word())
}

// Whitens the bytes, and leaves the caller's register stepped eight times for each byte. The answer is the refusal itself: 5, 9, or 0.
#[unsafe(no_mangle)]
pub extern "C" fn cj_whiten(r: &mut Register, bytes: &mut [u8]) -> u32
    ensures { Whitens r.old bytes.old result r.new bytes.new }
{
    number_of(whitening::whiten(r, bytes))
}

// Takes a block into the store, whole or not at all. Refuses 10, 11, then 12 to 16 record by record, then 17, with the place of the record; a place is at most 16,384.
#[unsafe(no_mangle)]
pub extern "C" fn cj_take(store: &mut [u8], block: &[u8]) -> Taken
    ensures { Takes store.old block.now result.refusal result.place store.new }
{
    flat::from_taken(store::take(store, block))
}

// One record of one meter, out of the first antenna's block or the second's: where its bytes stand in that block, which is not copied. Refuses 11 to 16 with the first
// block's place where both are malformed, then 14, 18. No number of the answer is above 16,384.
#[unsafe(no_mangle)]
pub extern "C" fn cj_read(first: &[u8], second: &[u8], meter: u32, ordinal: u32) -> Read
    ensures { Reading first.now second.now meter ordinal result.refusal result.place result.count result.antenna result.start result.length }
{
    flat::from_about(antennas::read_about(first, second, meter, ordinal))
}
