// Load (01, Operations): 27 numbers and a 16-byte key make a cold collector.
#![tactic(auto)]

ghost use Rattle.std.specs.Prelude.{◌≡◌, []};
ghost use Rattle.protocol.specs.Said.{shown_as};
ghost use Rattle.protocol.specs.Load.{loaded, blank, load};

use protocol::{Answer, Due, Phase, Refusal, State, Store, Vault};

// The bytes of a key.
pub const KEY_LEN: usize = 16;

// A cold collector: the vault's numbers and the key, and nothing else.
#[tactic(auto, unfolding(protocol::specs::Load::loaded))]
pub fn loaded(x: Vault, key: [u8; KEY_LEN]) -> State
    ensures { result ≡ loaded x key }
{
    State {
        vault: x,
        phase: Phase::Cold,
        due: Due::Nothing,
        table: table::empty(),
        journal: journal::no_journal(),
        points: journal::no_points(),
        held: journal::no_held(),
        key,
    }
}

// What a refused Load hands back: a state that every call turns down.
#[tactic(auto, unfolding(protocol::specs::Load::blank, protocol::specs::Vaults::new_vault, protocol::specs::Vaults::set_e))]
pub fn blank() -> State
    ensures { result ≡ blank }
{
    let x = Vault {
        e: vault::COUNTER_MAX + 1,
        ..vault::new_vault()
    };
    loaded(x, [0u8; KEY_LEN])
}

// Load. It refuses vault numbers that break Load's rule or the maximum (2), and a key that is not of 16 bytes (3).
#[tactic(auto, unfolding(protocol::specs::Load::load, protocol::specs::Said::refuse, protocol::specs::Said::shown_as, protocol::specs::Said::shown, protocol::specs::Said::number_of, protocol::specs::Said::values_of))]
pub fn load(x: Vault, key: &[u8]) -> Answer
    ensures { shown_as result [] ≡ load x key.now }
{
    if !vault::vault_ok(x) {
        return state::refused(blank(), Refusal::Numbers);
    }
    let Ok(bytes) = <[u8; KEY_LEN]>::try_from(key) else {
        return state::refused(blank(), Refusal::Length { right: KEY_LEN });
    };
    state::taken(loaded(x, bytes), Store::Nothing, 0)
}
