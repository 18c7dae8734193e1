// Learning by meter number: the smallest fraction of the bits in a meter's place of the store. The contract cites ByMeter of specs/.
#![tactic(auto)]

ghost use Rattle.by_meter.specs.ByMeter.{refusal_number, LearnsMeter, meter_number, meter_p, meter_q};

use fractions::Fraction;
use places::Place;
use refusals::Numbered;

// Why there is no fraction: refusals 10, 14 and 3.
#[derive(Clone, Copy, PartialEq, Eq)]
pub enum Refusal {
    NotAStore,
    BadMeter,
    NoneInside,
}

impl Numbered for Refusal {
    ghost number = { refusal_number };

    fn number(self) -> u32 {
        match self {
            Refusal::NotAStore => 10,
            Refusal::BadMeter => 14,
            Refusal::NoneInside => 3,
        }
    }
}

// The smallest fraction that fits the bits of a meter's place, or refusal 10 (not a store), 14 (the meter is not 1 to 32), 3 (no fitting pair inside the limits), in
// that order.
pub fn learn_meter(store: &[u8], meter: u32) -> Result<Fraction, Refusal>
    ensures { LearnsMeter store.now meter (meter_number result) (meter_p result) (meter_q result) }
{
    if !places::is_store(store) {
        return Err(Refusal::NotAStore);
    }
    let k = meter as usize;
    if !(1..=records::METERS).contains(&k) {
        return Err(Refusal::BadMeter);
    }
    let place = Place::at(store, places::place_at(k));
    // a place that keeps the rules has at most 4,096 bits in 512 bytes: learning's refusals 1 and 2 cannot come
    learning::learn(place.bits(), place.count() as u64).map_err(|_| Refusal::NoneInside)
}
