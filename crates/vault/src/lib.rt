// The vault's 27 numbers (01, Vault and stores): a new vault, Load's rule, a lane's number read, and a named store done.
//
// The vault goes in and out by value. Nothing here has a `requires`: a number of a lane above 7 is read as 0, and
// setting one changes nothing.
#![tactic(auto)]

ghost use Rattle.std.specs.Prelude.{◌≡◌, set};
ghost use Rattle.octets.specs.Lists.{at};
ghost use Rattle.octets.specs.Every.{all_below};
ghost use Rattle.table.specs.Table.{lanes};
ghost use Rattle.protocol.specs.Vaults.{new_vault, lane_ok, vault_ok};
ghost use Rattle.protocol.specs.History.{vault_after};

use protocol::{Lanes, Store, Vault};
use table::LANES;

// The most that a number of the vault may be, 2^48 - 1.
pub const COUNTER_MAX: u64 = 0xFFFF_FFFF_FFFF;

// A new vault.
#[tactic(auto, unfolding(protocol::specs::Vaults::new_vault))]
pub fn new_vault() -> Vault
    ensures { result ≡ new_vault }
{
    let none = [0u64; LANES as usize];
    Vault {
        w: none,
        v: none,
        r: none,
        e: 0,
        s: 0,
        n: 0,
    }
}

// The number of a lane, or 0 for a lane above 7.
pub fn lane_at(a: Lanes, lane: u8) -> u64
    ensures { result ≡ at a lane }
{
    a.get(lane as usize).copied().unwrap_or(0)
}

// Whether W, V and R of a lane keep Load's rule and the maximum.
#[tactic(auto, unfolding(protocol::specs::Vaults::lane_ok))]
pub fn lane_ok(w: u64, v: u64, r: u64) -> bool
    ensures { result ≡ lane_ok w v r }
{
    (w <= COUNTER_MAX) & (v <= w) & (r <= w) & ((r <= v) | (r == w))
}

// Whether W, V and R of every lane do.
fn lanes_ok(x: Vault) -> bool
    ensures { result ≡ all_below (λ i. lane_ok (at x.w i) (at x.v i) (at x.r i)) lanes }
{
    (0..LANES).all(|lane| lane_ok(lane_at(x.w, lane), lane_at(x.v, lane), lane_at(x.r, lane)))
}

// Whether the 27 numbers keep Load's rule and the maximum.
#[tactic(auto, unfolding(protocol::specs::Vaults::vault_ok))]
pub fn vault_ok(x: Vault) -> bool
    ensures { result ≡ vault_ok x }
{
    let fine = lanes_ok(x);
    (x.e <= COUNTER_MAX) & (x.s <= COUNTER_MAX) & (x.n <= COUNTER_MAX) & fine
}

// The numbers of the lanes with that of a lane set to k; a lane above 7 changes nothing.
pub fn lane_set(a: Lanes, lane: u8, k: u64) -> Lanes
    ensures { result ≡ set a lane k }
{
    let mut next = a;
    if lane < LANES {
        next[lane as usize] = k;
    }
    next
}

// The vault behind a store that is named: the number that it sets is set. A lane above 7 and a store of the card change
// nothing.
#[tactic(auto, unfolding(protocol::specs::History::vault_after))]
pub fn after(x: Vault, store: Store) -> Vault
    ensures { result ≡ vault_after store x }
{
    match store {
        Store::W { lane, value } => Vault {
            w: lane_set(x.w, lane, value),
            ..x
        },
        Store::V { lane, value } => Vault {
            v: lane_set(x.v, lane, value),
            ..x
        },
        Store::R { lane, value } => Vault {
            r: lane_set(x.r, lane, value),
            ..x
        },
        Store::E { value } => Vault { e: value, ..x },
        Store::S { value } => Vault { s: value, ..x },
        Store::N { value } => Vault { n: value, ..x },
        Store::Nothing | Store::Record { .. } | Store::File | Store::Delete { .. } | Store::Empty =>
            x,
    }
}
