// The collector (01, Operations): its state, and the operations as methods by value. A call hands the collector back with
// its outcome: the one store that it names, or why it was turned down. The host carries out a named store before the
// next call, and hands that call the collector last returned.
//
// Each method is one operation's call and its promise; all that they share is `Handed::from`.
#![tactic(auto)]

ghost use Rattle.std.specs.Prelude.{◌≡◌, [], length, get_or};
ghost use Rattle.octets.specs.Lists.{put_over};
ghost use Rattle.table.specs.Table.{no_entry};
ghost use Rattle.protocol.specs.Said.{shown_as};
ghost use Rattle.protocol.specs.Load.{load};
ghost use Rattle.protocol.specs.Accept.{accept, seal};
ghost use Rattle.protocol.specs.Commit.{commit};
ghost use Rattle.protocol.specs.Point.{point};
ghost use Rattle.protocol.specs.Checkpoint.{checkpoint};
ghost use Rattle.protocol.specs.Truncate.{truncate};
ghost use Rattle.protocol.specs.Recover.{recover};
ghost use Rattle.collector.specs.Back.{answered, handed_back};

use protocol::{Answer, Due, Outcome, Phase, State, Vault};
use table::{Entry, Table};

// A collector. Its state is private: others make one by Load, or of a state that they have, and ask it by its methods.
#[derive(Clone, Copy)]
pub struct Collector {
    state: State,
}

// What a call hands back.
#[derive(Clone, Copy)]
pub struct Handed {
    pub collector: Collector,
    pub outcome: Outcome,
}

// An answer, handed back.
impl From<Answer> for Handed {
    ghost from_gives = { λ a h. h ≡ handed_back a };

    fn from(a: Answer) -> Handed {
        Handed {
            collector: Collector { state: a.state },
            outcome: a.outcome,
        }
    }
}

impl Collector {
    // Load: the vault's numbers and a key of 16 bytes make a cold collector. Refuses with 2 and 3; what it then hands back
    // is a collector that turns down every call with 1.
    pub fn load(x: Vault, key: &[u8]) -> Handed
        ensures { shown_as (answered result) [] ≡ load x key.now }
    {
        Handed::from(loading::load(x, key))
    }

    // Accept: a transaction is held under the next number of its lane. Names the store of W. Refuses with 1 and 4 to 8.
    pub fn accept(self, transaction: &[u8], lane: u8, position: u64) -> Handed
        ensures { shown_as (answered result) [] ≡ accept self.state transaction.now lane position }
    {
        Handed::from(accepting::accept(self.state, transaction, lane, position))
    }

    // Seal: the record of the transaction held, at the start of out. Names the record's store. Refuses with 1 and 3.
    pub fn seal(self, out: &mut [u8]) -> Handed
        ensures answer { shown_as (answered result) (seal self.state (length out.old)).put ≡ seal self.state (length out.old) }
        ensures bytes { out.new ≡ put_over (seal self.state (length out.old)).put out.old }
    {
        Handed::from(accepting::seal(self.state, out))
    }

    // Commit: the bytes of a record, from the card, make its transaction visible. Names the store of V. Refuses with 1, 9,
    // 10 and 11.
    pub fn commit(self, bytes: &[u8]) -> Handed
        ensures { shown_as (answered result) [] ≡ commit self.state bytes.now }
    {
        Handed::from(committing::commit(self.state, bytes))
    }

    // Point: a position below which every accepted record is visible. Names no store. Refuses with 1, 6, 7 and 15.
    pub fn point(self, position: u64) -> Handed
        ensures { shown_as (answered result) [] ≡ point self.state position }
    {
        Handed::from(pointing::point(self.state, position))
    }

    // Checkpoint, in three calls: the store of N, the file at the start of out, the store of S. Refuses with 1, 3 and 8.
    pub fn checkpoint(self, out: &mut [u8]) -> Handed
        ensures answer { shown_as (answered result) (checkpoint self.state (length out.old)).put ≡ checkpoint self.state (length out.old) }
        ensures bytes { out.new ≡ put_over (checkpoint self.state (length out.old)).put out.old }
    {
        Handed::from(checkpointing::checkpoint(self.state, out))
    }

    // Truncate at a covered point, in nine calls: the stores of R of lanes 0 to 7, and the deletion. Refuses with 1 and 14.
    pub fn truncate(self, position: u64) -> Handed
        ensures { shown_as (answered result) [] ≡ truncate self.state position }
    {
        Handed::from(truncating::truncate(self.state, position))
    }

    // Recover, in 15 or 24 calls: the first reads checkpoint and log, and names the first store; the others name the other
    // stores, two of them with a file at the start of out. Refuses with 1, 3, 8 to 13.
    pub fn recover(self, file: &[u8], log: &[u8], out: &mut [u8]) -> Handed
        ensures answer { shown_as (answered result) (recover self.state file.now log.now (length out.old)).put ≡ recover self.state file.now log.now (length out.old) }
        ensures bytes { out.new ≡ put_over (recover self.state file.now log.now (length out.old)).put out.old }
    {
        Handed::from(recovering::recover(self.state, file, log, out))
    }

    // ---- for whoever keeps or makes a state

    // The collector of a state, whatever the state: the operations refuse with 1 what 01's rule does not let through.
    pub fn of(state: State) -> Collector
        ensures { result.state ≡ state }
    {
        Collector { state }
    }

    // Its state.
    pub fn state(self) -> State
        ensures { result ≡ self.state }
    {
        self.state
    }

    // ---- for a host and a screen

    // The latest reading of every meter.
    pub fn table(self) -> Table
        ensures { result ≡ self.state.table }
    {
        self.state.table
    }

    // The latest reading of a meter, with its code, its stamp, and the lane and number of its transaction.
    pub fn reading(self, meter: u8) -> Entry
        ensures { result ≡ get_or self.state.table.entries meter no_entry }
    {
        self.state.table.entries[usize::from(meter)]
    }

    // The vault's 27 numbers, as they stand when the store named last is done.
    pub fn numbers(self) -> Vault
        ensures { result ≡ self.state.vault }
    {
        self.state.vault
    }

    // Whether the collector is cold, recovering or in service.
    pub fn phase(self) -> Phase
        ensures { result ≡ self.state.phase }
    {
        self.state.phase
    }

    // The store that is due, if one is: then only the call that names it, or a Load, is taken.
    pub fn due(self) -> Due
        ensures { result ≡ self.state.due }
    {
        self.state.due
    }

    // How many accepted records are listed, of the 128 that may stand at or above the newest point.
    pub fn records(self) -> usize
        ensures { result ≡ self.state.journal.count }
    {
        self.state.journal.count
    }

    // How many points are kept, of the 8 that may be.
    pub fn points(self) -> usize
        ensures { result ≡ self.state.points.count }
    {
        self.state.points.count
    }
}
