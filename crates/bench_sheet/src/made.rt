// Collectors that the cases start from.
//
// A collector in service is made from a loaded one: the phase is set, and everything else is as Load left it.
use collector::Collector;
use protocol::{Phase, State, Vault};

const KEY: [u8; 16] = [7u8; 16];

// A cold one with these vault numbers.
pub fn cold(x: Vault) -> Collector {
    Collector::of(loading::loaded(x, KEY))
}

// One in service with these vault numbers.
pub fn serving(x: Vault) -> Collector {
    Collector::of(State {
        phase: Phase::Serving,
        ..loading::loaded(x, KEY)
    })
}
