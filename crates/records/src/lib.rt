// The record block: the record at a position, and the form of a whole block. Everything that reads blocks goes through `record_at`.
// The contracts cite Block of specs/.
#![tactic(auto)]

ghost use Rattle.std.specs.Prelude.{◌≡◌, ◌+◌, ◌-◌, ◌<◌, ◌≤◌, length};
ghost use Rattle.std.specs.Iterator.{at_most};
ghost use Rattle.records.specs.Block.{header_size, two_bytes, judged, head_at, form_of, number_of, place_of};
ghost use Rattle.records.specs.Steps.{Steps};

use refusals::Numbered;

// The mark, as a number of two bytes.
const MARK: usize = 0x5AC3;

// The bytes of a header, and where its meter and its count stand in it.
pub const HEADER: usize = 6;

const METER_AT: usize = 2;

const COUNT_AT: usize = 4;

// The last meter number, the most bits of a record, and the most bytes of a block.
pub const METERS: usize = 32;

pub const RECORD_BITS: usize = 512;

pub const BLOCK_BYTES: usize = 16384;

// A record's fields, where its bits start, and where the next record starts.
#[derive(Clone, Copy)]
pub struct Record {
    pub meter: usize,
    pub count: usize,
    pub start: usize,
    pub next: usize,
}

// Why a block is refused for its form. Each case but the first has its place.
#[derive(Clone, Copy, PartialEq, Eq)]
pub enum Refusal {
    TooLong,
    ShortHeader(usize),
    WrongMark(usize),
    BadMeter(usize),
    BadCount(usize),
    RunsPast(usize),
    SpareBit(usize),
}

impl Numbered for Refusal {
    ghost number = { number_of };

    fn number(self) -> u32 {
        match self {
            Refusal::TooLong => 11,
            Refusal::ShortHeader(_) | Refusal::RunsPast(_) => 12,
            Refusal::WrongMark(_) => 13,
            Refusal::BadMeter(_) => 14,
            Refusal::BadCount(_) => 15,
            Refusal::SpareBit(_) => 16,
        }
    }
}

impl Refusal {
    // The place that a refusal returns.
    pub fn place(self) -> usize
        ensures { result ≡ place_of self }
    {
        match self {
            Refusal::TooLong => 0,
            Refusal::ShortHeader(at)
            | Refusal::WrongMark(at)
            | Refusal::BadMeter(at)
            | Refusal::BadCount(at)
            | Refusal::RunsPast(at)
            | Refusal::SpareBit(at) => at,
        }
    }
}

// Two bytes, high byte first. Not an entry point: its callers in other crates show that both bytes are there.
pub fn two_bytes(bytes: &[u8], at: usize) -> usize
    requires { at + 1 < length bytes.now }
    ensures { (result ≡ two_bytes bytes.now at) × (result < 65536) }
{
    usize::from(u16::from_be_bytes([bytes[at], bytes[at + 1]]))
}

// The three numbers of a header.
#[derive(Clone, Copy)]
struct Header {
    mark: usize,
    meter: usize,
    count: usize,
}

impl Header {
    // The record of this header: the tests in the document's order, each refusal with its place.
    #[tactic(auto, unfolding(crate::specs::Block::judged))]
    fn judge(self, block: &[u8], at: usize) -> Result<Record, Refusal>
        requires { at + header_size ≤ length block.now }
        ensures { result ≡ judged block.now at self.mark self.meter self.count }
    {
        if self.mark != MARK {
            return Err(Refusal::WrongMark(at));
        }
        if !(1..=METERS).contains(&self.meter) {
            return Err(Refusal::BadMeter(at));
        }
        if !(1..=RECORD_BITS).contains(&self.count) {
            return Err(Refusal::BadCount(at));
        }
        let start = at + HEADER;
        let next = start + self.count.div_ceil(8);
        let Some(payload) = block.get(start..next) else {
            return Err(Refusal::RunsPast(at));
        };
        if !bits::clear_past(payload, self.count) {
            return Err(Refusal::SpareBit(at));
        }
        Ok(Record {
            meter: self.meter,
            count: self.count,
            start,
            next,
        })
    }
}

// The record at a position; at the end of the block, and past it, there is none.
#[tactic(auto, unfolding(crate::specs::Block::head_at))]
pub fn record_at(block: &[u8], at: usize) -> Result<Option<Record>, Refusal>
    ensures { result ≡ head_at block.now at }
{
    if block.len() <= at {
        return Ok(None);
    }
    if block.len() - at < HEADER {
        return Err(Refusal::ShortHeader(at));
    }
    let header = Header {
        mark: two_bytes(block, at),
        meter: two_bytes(block, at + METER_AT),
        count: two_bytes(block, at + COUNT_AT),
    };
    Ok(Some(header.judge(block, at)?))
}

// What a block has from a position on: its records one after another, up to its end, or up to a refusal, which is the last.
#[derive(Drop)]
pub struct Records<'a> {
    pub block: &'a [u8],
    pub at: usize,
}

impl<'a> Records<'a> {
    // All records of a block.
    pub fn of(block: &'a [u8]) -> Records<'a>
        ensures block { result.block.now ≡ block.now }
        ensures at { result.at ≡ 0 }
    {
        Records { block, at: 0 }
    }
}

impl<'a> Iterator for Records<'a> {
    type Item = Result<Record, Refusal>;

    ghost next_gives = { Steps };

    ghost remaining = { λ s. at_most (length s.block.now - s.at) };

    #[tactic(auto, using(crate::proofs::Standing::found_ahead, crate::proofs::Standing::refused_inside))]
    fn next(&mut self) -> Option<Result<Record, Refusal>> {
        let next = record_at(self.block, self.at).transpose()?;
        self.at = match next {
            Ok(record) => record.next,
            Err(_) => self.block.len(),
        };
        Some(next)
    }
}

// The form of a whole block: the first refusal in the document's order, if there is one.
#[tactic(auto, unfolding(crate::specs::Block::form_of))]
pub fn form_of(block: &[u8]) -> Result<(), Refusal>
    ensures { result ≡ form_of block.now }
{
    if BLOCK_BYTES < block.len() {
        return Err(Refusal::TooLong);
    }
    for record in Records::of(block) {
        record?;
    }
    Ok(())
}
