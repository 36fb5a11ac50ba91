// The collector's state and its answers as plain numbers, the form in which they cross to C.
//
// A C function can neither take nor give an enum. So the phase and the store that is due stand as numbers, and what a call
// answers stands as its number, its store and its value: numbers for kinds and "0 for none" are the C interface. A state is
// written down so and read by `From`; a state whose numbers are none that are written down is not known. The parts of the
// state that hold no enum cross as they are.
#![tactic(auto)]

ghost use Rattle.std.specs.Prelude.{◌≡◌, cond, [], ◌∷◌};
ghost use Rattle.protocol.specs.Said.{refused, shown, shown_as};
ghost use Rattle.bus.specs.Answer.{said_by};
ghost use Rattle.heat.specs.Answer.{said_by as split_by};
ghost use Rattle.heat.specs.Plain.{plain_by};
ghost use Rattle.boundary.specs.Flat.{due_of, numbers, due_numbers, phase_of, phase_number, known_by, thaw, freeze};
ghost use Rattle.boundary.specs.Replies.{named, said_of, reply_of, not_a_state};

use bus::BusError;
use heat::{NoRoom, SplitError};
use protocol::{
    Answer, CheckpointStep, Due, Held, Journal, Outcome, Phase, Points, RecoverNumber, RecoverStep,
    State, Store, TruncateStep, Vault,
};
use table::{TABLE_LEN, Table};
use transaction::MIN_TEXT;

// The edition of the C interface: how many of the requests of document 02 it has.
pub const EDITION: u64 = 5;

// The store that is due: its kind, and the position, the lane and the checkpoint (0 the first, 1 the second) of a kind that
// has them. What a kind does not have is 0.
#[repr(C)]
#[derive(Clone, Copy, Debug, PartialEq, Eq)]
pub struct DueNumbers {
    pub position: u64,
    pub kind: u8,
    pub lane: u8,
    pub second: u8,
}

// The state. Phase 1 is cold, 2 recovering, 3 in service; so zeros are no state.
#[repr(C)]
#[derive(Clone, Copy)]
pub struct FlatState {
    pub vault: Vault,
    pub due: DueNumbers,
    pub table: Table,
    pub journal: Journal,
    pub points: Points,
    pub held: Held,
    pub key: [u8; 16],
    pub phase: u8,
}

// What a call says: number 0 with the store that it names and the bytes that it put out, or 01's number with the value
// returned with it.
#[repr(C)]
#[derive(Clone, Copy, Debug, PartialEq, Eq)]
pub struct Said {
    pub value: u64,
    pub len: u64,
    pub number: u8,
    pub store: u8,
    pub lane: u8,
}

// The state handed back, and what the call says.
#[repr(C)]
#[derive(Clone, Copy)]
pub struct Reply {
    pub state: FlatState,
    pub said: Said,
}

// ---- the store that is due, and the phase

// The due store of these numbers; nothing where the kind is none.
impl From<DueNumbers> for Due {
    ghost from_gives = { λ d r. r ≡ due_of d };

    #[tactic(auto, unfolding(crate::specs::Flat::due_of))]
    fn from(d: DueNumbers) -> Due {
        let position = d.position;
        let lane = d.lane;
        let second = d.second == 1;
        match d.kind {
            1 => Due::Record,
            2 => Due::Checkpoint {
                step: CheckpointStep::File,
            },
            3 => Due::Checkpoint {
                step: CheckpointStep::Version,
            },
            4 => Due::Truncate {
                position,
                step: TruncateStep::R { lane },
            },
            5 => Due::Truncate {
                position,
                step: TruncateStep::Delete,
            },
            6 => Due::Recover {
                step: RecoverStep::File { second },
            },
            7 => Due::Recover {
                step: RecoverStep::Number {
                    number: RecoverNumber::S { second },
                },
            },
            8 => Due::Recover {
                step: RecoverStep::Number {
                    number: RecoverNumber::N,
                },
            },
            9 => Due::Recover {
                step: RecoverStep::Number {
                    number: RecoverNumber::R { lane },
                },
            },
            10 => Due::Recover {
                step: RecoverStep::Number {
                    number: RecoverNumber::E,
                },
            },
            11 => Due::Recover {
                step: RecoverStep::Number {
                    number: RecoverNumber::V { lane },
                },
            },
            12 => Due::Recover {
                step: RecoverStep::Empty,
            },
            _ => Due::Nothing,
        }
    }
}

// The numbers of a kind, with what it has of the other fields.
fn numbers(kind: u8, position: u64, lane: u8, second: bool) -> DueNumbers
    ensures { result ≡ numbers kind position lane (cond second 1 0) }
{
    DueNumbers {
        position,
        kind,
        lane,
        second: u8::from(second),
    }
}

// The numbers of a due store.
impl From<Due> for DueNumbers {
    ghost from_gives = { λ d r. r ≡ due_numbers d };

    #[tactic(auto, unfolding(crate::specs::Flat::due_numbers))]
    fn from(d: Due) -> DueNumbers {
        match d {
            Due::Nothing => numbers(0, 0, 0, false),
            Due::Record => numbers(1, 0, 0, false),
            Due::Checkpoint { step } => match step {
                CheckpointStep::File => numbers(2, 0, 0, false),
                CheckpointStep::Version => numbers(3, 0, 0, false),
            },
            Due::Truncate { position, step } => match step {
                TruncateStep::R { lane } => numbers(4, position, lane, false),
                TruncateStep::Delete => numbers(5, position, 0, false),
            },
            Due::Recover { step } => match step {
                RecoverStep::File { second } => numbers(6, 0, 0, second),
                RecoverStep::Number { number } => match number {
                    RecoverNumber::S { second } => numbers(7, 0, 0, second),
                    RecoverNumber::N => numbers(8, 0, 0, false),
                    RecoverNumber::R { lane } => numbers(9, 0, lane, false),
                    RecoverNumber::E => numbers(10, 0, 0, false),
                    RecoverNumber::V { lane } => numbers(11, 0, lane, false),
                },
                RecoverStep::Empty => numbers(12, 0, 0, false),
            },
        }
    }
}

// The phase of a number; cold where it is none. No `From`: `Phase` and `u8` are both declared elsewhere.
#[tactic(auto, unfolding(crate::specs::Flat::phase_of))]
pub fn phase_of(p: u8) -> Phase
    ensures { result ≡ phase_of p }
{
    match p {
        2 => Phase::Recovering,
        3 => Phase::Serving,
        _ => Phase::Cold,
    }
}

// The number of a phase.
#[tactic(auto, unfolding(crate::specs::Flat::phase_number))]
pub fn phase_number(p: Phase) -> u8
    ensures { result ≡ phase_number p }
{
    match p {
        Phase::Cold => 1,
        Phase::Recovering => 2,
        Phase::Serving => 3,
    }
}

// ---- the state

// Whether a due store and a phase are written down so.
#[tactic(auto, unfolding(crate::specs::Flat::known_by, crate::specs::Flat::due_known, crate::specs::Flat::same_due, crate::specs::Flat::phase_known))]
pub fn known(d: DueNumbers, p: u8) -> bool
    ensures { result ≡ known_by d p }
{
    let due = DueNumbers::from(Due::from(d));
    let phase = phase_number(phase_of(p));
    (due == d) & (phase == p)
}

// The state that stands in these numbers.
impl From<FlatState> for State {
    ghost from_gives = { λ s r. r ≡ thaw s };

    #[tactic(auto, unfolding(crate::specs::Flat::thaw))]
    fn from(s: FlatState) -> State {
        let key = s.key;
        State {
            vault: s.vault,
            phase: phase_of(s.phase),
            due: Due::from(s.due),
            table: s.table,
            journal: s.journal,
            points: s.points,
            held: s.held,
            key,
        }
    }
}

// A state, written down.
impl From<State> for FlatState {
    ghost from_gives = { λ c r. r ≡ freeze c };

    #[tactic(auto, unfolding(crate::specs::Flat::freeze))]
    fn from(c: State) -> FlatState {
        let key = c.key;
        FlatState {
            vault: c.vault,
            due: DueNumbers::from(c.due),
            table: c.table,
            journal: c.journal,
            points: c.points,
            held: c.held,
            key,
            phase: phase_number(c.phase),
        }
    }
}

// ---- what a call says

// A store that is named, with so many bytes put out.
#[tactic(auto, unfolding(crate::specs::Replies::named))]
fn named(store: Store, len: u64) -> Said
    ensures { result ≡ named store len }
{
    let (store, lane, value) = match store {
        Store::Nothing => (0, 0, 0),
        Store::W { lane, value } => (1, lane, value),
        Store::V { lane, value } => (2, lane, value),
        Store::R { lane, value } => (3, lane, value),
        Store::E { value } => (4, 0, value),
        Store::S { value } => (5, 0, value),
        Store::N { value } => (6, 0, value),
        Store::Record { position } => (7, 0, position),
        Store::File => (8, 0, 0),
        Store::Delete { position } => (9, 0, position),
        Store::Empty => (10, 0, 0),
    };
    Said {
        value,
        len,
        number: 0,
        store,
        lane,
    }
}

// A number, and the value returned with it.
#[tactic(auto, unfolding(crate::specs::Replies::said_of))]
fn refused(number: u8, value: u64) -> Said
    ensures { result ≡ said_of (refused number (value ∷ [])) }
{
    Said {
        value,
        len: 0,
        number,
        store: 0,
        lane: 0,
    }
}

// What an outcome says.
impl From<Outcome> for Said {
    ghost from_gives = { λ o r. r ≡ said_of (shown o) };

    #[tactic(auto, unfolding(crate::specs::Replies::said_of, protocol::specs::Said::shown))]
    fn from(o: Outcome) -> Said {
        match o {
            Ok(t) => named(t.store, t.len as u64),
            Err(why) => refused(why.number(), why.value()),
        }
    }
}

// What a reply off the bus comes to.
impl From<Result<(), BusError>> for Said {
    ghost from_gives = { λ h r. r ≡ said_of (said_by h) };

    #[tactic(auto, unfolding(crate::specs::Replies::said_of, bus::specs::Answer::said_by))]
    fn from(h: Result<(), BusError>) -> Said {
        match h {
            Ok(()) => named(Store::Nothing, MIN_TEXT as u64),
            Err(why) => refused(why.number(), why.value()),
        }
    }
}

// What a heat split comes to.
impl From<Result<usize, SplitError>> for Said {
    ghost from_gives = { λ h r. r ≡ said_of (split_by h) };

    #[tactic(auto, unfolding(crate::specs::Replies::said_of, heat::specs::Answer::said_by))]
    fn from(h: Result<usize, SplitError>) -> Said {
        match h {
            Ok(len) => named(Store::Nothing, len as u64),
            Err(why) => refused(why.number(), why.value()),
        }
    }
}

// What a plain table comes to. Its one refusal has no enum to ask for its number.
impl From<Result<(), NoRoom>> for Said {
    ghost from_gives = { λ h r. r ≡ said_of (plain_by h) };

    #[tactic(auto, unfolding(crate::specs::Replies::said_of, heat::specs::Plain::plain_by))]
    fn from(h: Result<(), NoRoom>) -> Said {
        match h {
            Ok(()) => named(Store::Nothing, TABLE_LEN as u64),
            Err(NoRoom) => refused(3, TABLE_LEN as u64),
        }
    }
}

// The reply of a call that answered so.
impl From<Answer> for Reply {
    ghost from_gives = { λ a r. r ≡ reply_of (shown_as a []) };

    #[tactic(auto, unfolding(crate::specs::Replies::reply_of, protocol::specs::Said::shown_as))]
    fn from(a: Answer) -> Reply {
        Reply {
            state: FlatState::from(a.state),
            said: Said::from(a.outcome),
        }
    }
}

// The reply to a state that is not known: number 1, and the state as it came. No operation has seen it, so no `Refusal` says why.
#[tactic(auto, unfolding(crate::specs::Replies::not_a_state, crate::specs::Replies::said_of))]
pub fn not_a_state(s: FlatState) -> Reply
    ensures { result ≡ not_a_state s }
{
    Reply {
        state: s,
        said: refused(1, 0),
    }
}
