// Taking a block into the store of bursts, whole or not at all. The contracts cite Taking of specs/, and Places of the crate `places`.
#![tactic(auto)]

ghost use Rattle.std.specs.Prelude.{◌≡◌, true, Ok};
ghost use Rattle.records.specs.Block.{parse};
ghost use Rattle.places.specs.Places.{is_store, bits_of, encode_all};
ghost use Rattle.room.specs.Rooms.{room_of};
ghost use Rattle.store.specs.Taking.{append_all, take_of, refusal_number, refusal_place, place_of};
ghost use Rattle.store.specs.declared.Refusal.TheVariants.{Malformed, NoRoom};

use places::Place;
use records::Records;
use refusals::Numbered;
use room::Full;

// Why a block is not taken.
#[derive(Clone, Copy, PartialEq, Eq)]
pub enum Refusal {
    NotAStore,
    Malformed(records::Refusal),
    NoRoom(usize),
}

impl From<records::Refusal> for Refusal {
    ghost from_gives = { λ form refusal. refusal ≡ Malformed form };

    fn from(refusal: records::Refusal) -> Refusal {
        Refusal::Malformed(refusal)
    }
}

impl From<Full> for Refusal {
    ghost from_gives = { λ full refusal. refusal ≡ NoRoom full.at };

    fn from(full: Full) -> Refusal {
        Refusal::NoRoom(full.at)
    }
}

impl Numbered for Refusal {
    ghost number = { refusal_number };

    fn number(self) -> u32 {
        match self {
            Refusal::NotAStore => 10,
            Refusal::Malformed(form) => form.number(),
            Refusal::NoRoom(_) => 17,
        }
    }
}

impl Refusal {
    // The place that a refusal returns, 0 where it has none.
    pub fn place(self) -> usize
        ensures { result ≡ refusal_place self }
    {
        match self {
            Refusal::NotAStore => 0,
            Refusal::Malformed(form) => form.place(),
            Refusal::NoRoom(at) => at,
        }
    }
}

// The place that an answer returns, 0 for a block that was taken.
pub fn place(answer: Result<(), Refusal>) -> usize
    ensures { result ≡ place_of answer }
{
    match answer {
        Ok(()) => 0,
        Err(refusal) => refusal.place(),
    }
}

// Appends each record's bits to its meter's place, in block order.
fn write_all(store: &mut [u8], block: &[u8])
    requires { (is_store store.old ≡ true) × (room_of (bits_of store.old) (parse block.now).records ≡ Ok tt) }
    ensures { store.new ≡ encode_all (append_all (bits_of store.old) (parse block.now).records) }
{
    for record in Records::of(block) {
        let Ok(record) = record else {
            break;
        };
        let at = places::place_at(record.meter);
        let have = Place::at(store, at).count();
        let payload = &block[record.start..record.next];
        places::append_bits(store, at, have, payload, record.count);
    }
}

// Takes a block whole, or refuses it whole and leaves the store as it was.
#[tactic(auto, unfolding(crate::specs::Taking::take_of))]
pub fn take(store: &mut [u8], block: &[u8]) -> Result<(), Refusal>
    ensures { (result ≡ (take_of store.old block.now).answer)
        × (store.new ≡ (take_of store.old block.now).store) }
{
    if !places::is_store(store) {
        return Err(Refusal::NotAStore);
    }
    records::form_of(block)?;
    room::room_for(store, block)?;
    write_all(store, block);
    Ok(())
}
