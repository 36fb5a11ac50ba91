// The collector's state and what its calls answer (01, Vault and stores, Operations, Numbers on the display).
//
// This crate has the declared types and the definitions of the eight operations over them (specs/). Its only code gives a
// refusal's number and value: the crates of the operations have the rest, and their contracts cite these definitions.
#![tactic(auto)]

ghost use Rattle.std.specs.Prelude.{◌≡◌};
ghost use Rattle.octets.specs.Lists.{at};
ghost use Rattle.protocol.specs.Said.{number_of, values_of};

use table::{LANES, Table};
use transaction::MAX_TEXT;

// A number for each lane.
pub type Lanes = [u64; LANES as usize];
// The most records listed at or above the newest point.
pub const LISTED: usize = 128;
// The most points kept.
pub const POINTS: usize = 8;

// The vault's 27 numbers. For each lane: w, the numbers handed out; v, the numbers visible; r, the numbers truncated.
// The epoch e, the checkpoint version s, and the checkpoint seal number n. The C interface has this layout.
#[repr(C)]
#[derive(Clone, Copy)]
pub struct Vault {
    pub w: Lanes,
    pub v: Lanes,
    pub r: Lanes,
    pub e: u64,
    pub s: u64,
    pub n: u64,
}

// A collector is cold after loading, recovering, or in service.
#[derive(Clone, Copy, PartialEq, Eq)]
pub enum Phase {
    Cold,
    Recovering,
    Serving,
}

// The single store that is due, by the operation that it belongs to.
#[derive(Clone, Copy, PartialEq, Eq)]
pub enum Due {
    Nothing,
    // Accept: the record of the transaction held.
    Record,
    Checkpoint { step: CheckpointStep },
    // Truncate at a position.
    Truncate { position: u64, step: TruncateStep },
    Recover { step: RecoverStep },
}

// Behind N: the file, then S.
#[derive(Clone, Copy, PartialEq, Eq)]
pub enum CheckpointStep {
    File,
    Version,
}

// R of a lane, then the deletion.
#[derive(Clone, Copy, PartialEq, Eq)]
pub enum TruncateStep {
    R { lane: u8 },
    Delete,
}

// Behind the first N: the file of the first or second checkpoint, a vault number, emptying the log.
#[derive(Clone, Copy, PartialEq, Eq)]
pub enum RecoverStep {
    File { second: bool },
    Number { number: RecoverNumber },
    Empty,
}

// S of the first or second checkpoint, the second N, R of a lane, E, V of a lane.
#[derive(Clone, Copy, PartialEq, Eq)]
pub enum RecoverNumber {
    S { second: bool },
    N,
    R { lane: u8 },
    E,
    V { lane: u8 },
}

// The accepted records at or above the newest point, in the order of their positions, and the last position used. The C
// interface has this layout: two arrays with a count, and a flag beside the last position.
#[repr(C)]
#[derive(Clone, Copy)]
pub struct Journal {
    pub positions: [u64; LISTED],
    pub lanes: [u8; LISTED],
    pub count: usize,
    pub used: bool,
    pub last: u64,
}

// A point: per lane how many numbers lie below it, and whether a checkpoint covers it. The C interface has this layout.
#[repr(C)]
#[derive(Clone, Copy)]
pub struct Point {
    pub position: u64,
    pub counts: Lanes,
    pub covered: bool,
}

// The points kept, and the newest one set since service began. The C interface has this layout: an array with a count, and a
// flag beside the newest position.
#[repr(C)]
#[derive(Clone, Copy)]
pub struct Points {
    pub items: [Point; POINTS],
    pub count: usize,
    pub any: bool,
    pub newest: u64,
}

// The transaction that Accept holds for Seal. The C interface has this layout: an array with a length.
#[repr(C)]
#[derive(Clone, Copy)]
pub struct Held {
    pub text: [u8; MAX_TEXT],
    pub len: usize,
    pub lane: u8,
    pub position: u64,
}

#[derive(Clone, Copy)]
pub struct State {
    pub vault: Vault,
    pub phase: Phase,
    pub due: Due,
    pub table: Table,
    pub journal: Journal,
    pub points: Points,
    pub held: Held,
    pub key: [u8; 16],
}

// The store that a call names.
#[derive(Clone, Copy, PartialEq, Eq)]
pub enum Store {
    Nothing,
    W { lane: u8, value: u64 },
    V { lane: u8, value: u64 },
    R { lane: u8, value: u64 },
    E { value: u64 },
    S { value: u64 },
    N { value: u64 },
    Record { position: u64 },
    File,
    Delete { position: u64 },
    Empty,
}

// The step of a vault number: the vault's numbers behind it, the store that is due next, and the store named.
#[derive(Clone, Copy)]
pub struct Step {
    pub vault: Vault,
    pub due: Due,
    pub store: Store,
}

// Why a call is turned down.
#[derive(Clone, Copy, PartialEq, Eq)]
pub enum Refusal {
    Condition,
    Numbers,
    Length { right: usize },
    Transaction,
    Lane,
    Position,
    Full,
    Spent,
    Closed { offset: usize },
    Epoch { offset: usize },
    Turn { offset: usize },
    Version,
    Missing { lane: u8 },
    Point,
    Unseen,
}

// The number and the value on the display (01, Numbers on the display when a call is turned down).
impl Refusal {
    // The number.
    #[tactic(auto, unfolding(crate::specs::Said::number_of))]
    pub fn number(self) -> u8
        ensures { result ≡ number_of self }
    {
        match self {
            Refusal::Condition => 1,
            Refusal::Numbers => 2,
            Refusal::Length { .. } => 3,
            Refusal::Transaction => 4,
            Refusal::Lane => 5,
            Refusal::Position => 6,
            Refusal::Full => 7,
            Refusal::Spent => 8,
            Refusal::Closed { .. } => 9,
            Refusal::Epoch { .. } => 10,
            Refusal::Turn { .. } => 11,
            Refusal::Version => 12,
            Refusal::Missing { .. } => 13,
            Refusal::Point => 14,
            Refusal::Unseen => 15,
        }
    }

    // The value returned with it, or 0 where there is none.
    #[tactic(auto, unfolding(crate::specs::Said::values_of))]
    pub fn value(self) -> u64
        ensures { result ≡ at (values_of self) 0 }
    {
        match self {
            Refusal::Length { right } => right as u64,
            Refusal::Closed { offset } | Refusal::Epoch { offset } | Refusal::Turn { offset } =>
                offset as u64,
            Refusal::Missing { lane } => u64::from(lane),
            _ => 0,
        }
    }
}

// A call that is taken: the store that it names, and how many bytes it put out.
#[derive(Clone, Copy, PartialEq, Eq)]
pub struct Taken {
    pub store: Store,
    pub len: usize,
}

// What a call answers: what was taken, or why it was turned down.
pub type Outcome = Result<Taken, Refusal>;

// A call hands the state back with its outcome.
#[derive(Clone, Copy)]
pub struct Answer {
    pub state: State,
    pub outcome: Outcome,
}
