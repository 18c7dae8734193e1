// The two-antenna reader: one record of one meter, out of the first antenna's block or the second's. Both questions go through the one
// parser of `records`. The contracts cite Antennas of specs/.
#![tactic(auto)]

ghost use Rattle.std.specs.Prelude.{◌≡◌, ◌<◌};
ghost use Rattle.records.specs.Block.{parse};
ghost use Rattle.records.specs.Named.{named};
ghost use Rattle.antennas.specs.Antennas.{Asked, Read, Part, Lies, antenna_of, refusal_number, refusal_place, read_number, read_place, read_count, read_antenna, read_start, read_length};
ghost use Rattle.antennas.specs.Search.{Sought};

use records::Records;
use refusals::Numbered;

// The antenna whose block is used.
#[derive(Clone, Copy, PartialEq, Eq)]
pub enum Antenna {
    First,
    Second,
}

// The document's number of an antenna.
impl From<Antenna> for u32 {
    ghost from_gives = { λ antenna n. n ≡ antenna_of antenna };

    fn from(antenna: Antenna) -> u32 {
        match antenna {
            Antenna::First => 1,
            Antenna::Second => 2,
        }
    }
}

// What is told of a record: its bits, the antenna that it came from, and where its bytes stand in that antenna's block.
#[derive(Clone, Copy)]
pub struct Seen {
    pub count: usize,
    pub antenna: Antenna,
    pub start: usize,
    pub length: usize,
}

// Why nothing is told. A block's refusal has its place; the two refusals of the question itself have none.
#[derive(Clone, Copy, PartialEq, Eq)]
pub enum Refusal {
    Malformed(records::Refusal),
    BadMeter,
    NoRecord,
}

impl Numbered for Refusal {
    ghost number = { refusal_number };

    fn number(self) -> u32 {
        match self {
            Refusal::Malformed(refusal) => refusal.number(),
            Refusal::BadMeter => 14,
            Refusal::NoRecord => 18,
        }
    }
}

impl Refusal {
    // The place that a refusal returns.
    pub fn place(self) -> usize
        ensures { result ≡ refusal_place self }
    {
        match self {
            Refusal::Malformed(refusal) => refusal.place(),
            Refusal::BadMeter | Refusal::NoRecord => 0,
        }
    }
}

// The ordinal-th of the records of a block that name the meter. By a `for`: what `map_while`, `filter` and `nth` give of this iterator is not proved, since its
// relation speaks of positions in the block.
fn find(block: &[u8], antenna: Antenna, meter: usize, ordinal: u32) -> Result<Seen, Refusal>
    requires { 0 < ordinal }
    ensures { Sought antenna (named meter (parse block.now).records) ordinal result }
{
    let mut left = ordinal;
    for record in Records::of(block) {
        let Ok(record) = record else {
            break;
        };
        if record.meter == meter {
            if left == 1 {
                return Ok(Seen {
                    count: record.count,
                    antenna,
                    start: record.start,
                    length: record.next - record.start,
                });
            }
            left -= 1;
        }
    }
    Err(Refusal::NoRecord)
}

// The question to the block that is used.
fn ask(block: &[u8], antenna: Antenna, meter: u32, ordinal: u32) -> Result<Seen, Refusal>
    ensures { Asked antenna block.now meter ordinal result (read_number result) (read_place result) (read_count result) (read_antenna result) (read_start result) (read_length result) }
{
    let asked = meter as usize;
    if !(1..=records::METERS).contains(&asked) {
        return Err(Refusal::BadMeter);
    }
    if ordinal == 0 {
        return Err(Refusal::NoRecord);
    }
    find(block, antenna, asked, ordinal)
}

// The bit count, the antenna and the stretch of that meter's record, or the refusal. A block that is malformed anywhere is not used at all.
// The four arguments are C's, and the program's; no fact goes with them that a struct of them would hold.
pub fn read_about(first: &[u8], second: &[u8], meter: u32, ordinal: u32) -> Result<Seen, Refusal>
    ensures { Read first.now second.now meter ordinal result }
{
    let Err(refusal) = records::form_of(first) else {
        return ask(first, Antenna::First, meter, ordinal);
    };
    match records::form_of(second) {
        Ok(()) => ask(second, Antenna::Second, meter, ordinal),
        Err(_) => Err(Refusal::Malformed(refusal)),
    }
}

// The payload bytes of that record, as a part of the block it came from; on a refusal the empty part from the start of the first block.
pub fn read_part<'a>(first: &'a [u8], second: &'a [u8], meter: u32, ordinal: u32) -> &'a [u8]
    ensures part { Part first.now second.now meter ordinal result.now }
    ensures lies { Lies first.now second.now meter ordinal first.entry.ref_ptr second.entry.ref_ptr result.ref_ptr }
{
    let Ok(seen) = read_about(first, second, meter, ordinal) else {
        return &first[..0];
    };
    let block = match seen.antenna {
        Antenna::First => first,
        Antenna::Second => second,
    };
    &block[seen.start..seen.start + seen.length]
}
