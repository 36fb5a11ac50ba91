// The state that a call is handed, and what a call hands back (01, Vault and stores; Numbers on the display).
//
// The tests are lent the state: it is some 8 KB, and passing it is copying it.
#![tactic(auto)]

ghost use Rattle.std.specs.Prelude.{◌≡◌};
ghost use Rattle.protocol.specs.States.{serving, is_nothing, valid, ready};
ghost use Rattle.protocol.specs.Said.{refused_with, taken_with};
ghost use Rattle.protocol.specs.Accept.{is_record};

use protocol::{Answer, Due, LISTED, POINTS, Phase, Refusal, State, Store, Taken};

// Each of the next three is the definition of its name, which the operations' contracts use.

// Whether a collector of this phase is in service.
pub fn serving(phase: Phase) -> bool
    ensures { result ≡ serving phase }
{
    matches!(phase, Phase::Serving)
}

// Whether no store is due.
pub fn is_nothing(due: Due) -> bool
    ensures { result ≡ is_nothing due }
{
    matches!(due, Due::Nothing)
}

// Whether the record of a transaction that is held is due.
pub fn is_record(due: Due) -> bool
    ensures { result ≡ is_record due }
{
    matches!(due, Due::Record)
}

// Whether a state may be handed over: the vault's numbers keep Load's rule, and no more records and points are listed than
// there is room for.
#[tactic(auto, unfolding(protocol::specs::States::valid))]
pub fn valid(c: &State) -> bool
    ensures { result ≡ valid c.now }
{
    let fine = vault::vault_ok(c.vault);
    fine & (c.journal.count <= LISTED) & (c.points.count <= POINTS)
}

// Whether it is also in service with no store due.
#[tactic(auto, unfolding(protocol::specs::States::valid, protocol::specs::States::ready))]
pub fn ready(c: &State) -> bool
    ensures { result ≡ ready c.now }
{
    valid(c) & serving(c.phase) & is_nothing(c.due)
}

// A call is turned down: the state as it came, and why.
pub fn refused(c: State, why: Refusal) -> Answer
    ensures { result ≡ refused_with c why }
{
    Answer {
        state: c,
        outcome: Err(why),
    }
}

// A call is taken: the new state, the store that it names, and how many bytes it put out.
pub fn taken(c: State, store: Store, len: usize) -> Answer
    ensures { result ≡ taken_with c store len }
{
    Answer {
        state: c,
        outcome: Ok(Taken { store, len }),
    }
}
