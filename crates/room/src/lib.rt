// The room of a block's records in the store. The contract cites Rooms of specs/, and Places of the crate `places`.
#![tactic(auto)]

ghost use Rattle.std.specs.Prelude.{◌≡◌, true};
ghost use Rattle.records.specs.Block.{parse};
ghost use Rattle.places.specs.Places.{is_store, bits_of};
ghost use Rattle.room.specs.Rooms.{room_of};

use places::Place;
use records::Records;

// A record has no room: where it begins.
#[derive(Clone, Copy, PartialEq, Eq)]
pub struct Full {
    pub at: usize,
}

// Judges the room of every record, before anything is written: with bits already appended, a refusal could not leave the store as it was. Not an entry point: its callers in other
// crates show that the store keeps its rules.
pub fn room_for(store: &[u8], block: &[u8]) -> Result<(), Full>
    requires { is_store store.now ≡ true }
    ensures { result ≡ room_of (bits_of store.now) (parse block.now).records }
{
    // by meter; 16 bits count a place's bits and a record's, and the array stands on the caller's stack
    let mut used = [0u16; records::METERS];
    for record in Records::of(block) {
        let Ok(record) = record else {
            break;
        };
        let used = &mut used[record.meter - 1];
        *used += record.count as u16;
        let place = Place::at(store, places::place_at(record.meter));
        if places::MOST_BITS < place.count() + usize::from(*used) {
            return Err(Full {
                at: record.start - records::HEADER,
            });
        }
    }
    Ok(())
}
