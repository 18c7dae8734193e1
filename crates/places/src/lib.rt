// The store of bursts as bytes: 32 places, one for each meter. This crate alone knows where a place stands and what stands in it. The contracts cite Places of specs/.
#![tactic(auto)]

ghost use Rattle.std.specs.Prelude.{◌≡◌, ◌+◌, ◌<◌, ◌≤◌, length, take, drop};
ghost use Rattle.std.specs.List.{list_all};
ghost use Rattle.records.specs.Block.{meters};
ghost use Rattle.places.specs.Places.{place_size, place_at, count_of, held, is_place, is_store, burst, HasPlace};
ghost use Rattle.places.specs.Appending.{PlaceFits, appended};

// The bytes of a place, and where its count and its bits stand in it.
pub const PLACE_SIZE: usize = 514;

const COUNT_AT: usize = 0;

const BITS_AT: usize = 2;

// The most bits of a place, and the bytes of the store.
pub const MOST_BITS: usize = 4096;

pub const STORE_SIZE: usize = records::METERS * PLACE_SIZE;

// Where a meter's place begins. Not an entry point: its callers in other crates show that the meter is from 1 to 32.
pub fn place_at(meter: usize) -> usize
    requires { (0 < meter) × (meter ≤ meters) }
    ensures { result ≡ place_at meter }
{
    PLACE_SIZE * (meter - 1)
}

// One place of a store: its count, and the bytes of its bits.
#[derive(Clone, Copy)]
pub struct Place<'a> {
    pub bytes: &'a [u8; PLACE_SIZE],
}

impl<'a> Place<'a> {
    // The place at `at`. Not an entry point: its callers in other crates show that the place is inside.
    pub fn at(store: &'a [u8], at: usize) -> Place<'a>
        requires { at + place_size ≤ length store.now }
        ensures { result.bytes.now ≡ take place_size (drop at store.now) }
    {
        Place {
            bytes: (&store[at..at + PLACE_SIZE]).try_into().unwrap(),
        }
    }

    pub fn count(&self) -> usize
        ensures { (result ≡ count_of self.now.bytes.now 0) × (result < 65536) }
    {
        let bytes = self.bytes;
        records::two_bytes(bytes, COUNT_AT)
    }

    // The bytes of the bits.
    pub fn bits(&self) -> &'a [u8]
        ensures { result.now ≡ held self.now.bytes.now 0 }
    {
        let bytes = self.bytes;
        &bytes[BITS_AT..]
    }

    // Whether the place keeps the rules.
    #[tactic(auto, unfolding(crate::specs::Places::is_place))]
    fn is_sound(&self) -> bool
        ensures { result ≡ is_place self.now.bytes.now 0 }
    {
        let count = self.count();
        count <= MOST_BITS && bits::clear_past(self.bits(), count)
    }
}

fn all_sound(places: &[[u8; PLACE_SIZE]]) -> bool
    ensures { result ≡ list_all (λ place. is_place place 0) places.now }
{
    places.iter().all(|bytes| Place { bytes }.is_sound())
}

// Whether the bytes are a store: 16,448 of them, and every place keeps the rules.
#[tactic(auto, unfolding(crate::specs::Places::is_store))]
pub fn is_store(store: &[u8]) -> bool
    ensures { result ≡ is_store store.now }
{
    store.len() == STORE_SIZE && all_sound(store.as_chunks().0)
}

// Appends the bits of a payload to the place at `at`, which has `have` of them. Not an entry point: its callers in other crates show that there is room.
// By the store and the position, not a method of `Place`: a struct that holds the store for writing would be made for this one call.
// Not inlined: inside a long function the loop over the bytes may lie so that taking a block costs a fifth more.
#[inline(never)]
pub fn append_bits(store: &mut [u8], at: usize, have: usize, payload: &[u8], count: usize)
    requires { PlaceFits store.old at have payload.now count }
    ensures { store.new ≡ appended store.old at have payload.now count }
{
    let [high, low] = ((have + count) as u16).to_be_bytes();
    store[at + COUNT_AT] = high;
    store[at + COUNT_AT + 1] = low;
    packing::add_bits(&mut store[at + BITS_AT..at + PLACE_SIZE], have, payload);
}

// The number of bits of a meter's place. Not an entry point: its callers in other crates show that the store keeps the rules and has the meter.
pub fn bit_count(store: &[u8], meter: u32) -> u32
    requires { HasPlace store.now meter }
    ensures { result ≡ length (burst store.now meter) }
{
    Place::at(store, place_at(meter as usize)).count() as u32
}
