// One store of an operation that takes several (01, Operations): a vault number, or a checkpoint's file. Each is told
// which store is due behind it. Checkpoint, Truncate and Recover are made of these.
#![tactic(auto)]

ghost use Rattle.std.specs.Prelude.{◌≡◌, [], length};
ghost use Rattle.octets.specs.Lists.{put_over};
ghost use Rattle.sealed.specs.Aead.{aes_gcm};
ghost use Rattle.sealed.specs.Checkpoint.{file_len, file_bytes, file_answer, file_put};
ghost use Rattle.protocol.specs.Said.{shown_as};
ghost use Rattle.protocol.specs.Steps.{stepped, file_step};
ghost use Rattle.steps.specs.Numbers.{counter_of, counter_store, lane_store, raise, put};

use protocol::{Due, Outcome, Refusal, State, Step, Store, Taken, Vault};
use sealed::file::{FILE_LEN, Short};
use table::{LANES, Table};
use vault::COUNTER_MAX;

// A number of the vault that rises by one.
#[derive(Clone, Copy, PartialEq, Eq)]
pub enum Counter {
    E,
    S,
    N,
}

impl Counter {
    // The number, of the vault's.
    fn of(self, x: Vault) -> u64
        ensures { result ≡ counter_of self x }
    {
        match self {
            Counter::E => x.e,
            Counter::S => x.s,
            Counter::N => x.n,
        }
    }

    // The store that sets it.
    fn store(self, value: u64) -> Store
        ensures { result ≡ counter_store self value }
    {
        match self {
            Counter::E => Store::E { value },
            Counter::S => Store::S { value },
            Counter::N => Store::N { value },
        }
    }
}

// A number of a lane that is set.
#[derive(Clone, Copy, PartialEq, Eq)]
pub enum LaneCounter {
    V,
    R,
}

impl LaneCounter {
    // The store that sets it.
    fn store(self, lane: u8, value: u64) -> Store
        ensures { result ≡ lane_store self lane value }
    {
        match self {
            LaneCounter::V => Store::V { lane, value },
            LaneCounter::R => Store::R { lane, value },
        }
    }
}

// E + 1, S + 1 or N + 1; not where that number is at the maximum.
pub fn raise(x: Vault, which: Counter, next: Due) -> Option<Step>
    ensures { result ≡ raise which x next }
{
    let old = which.of(x);
    if COUNTER_MAX <= old {
        return None;
    }
    let store = which.store(old + 1);
    let raised = vault::after(x, store);
    Some(Step {
        vault: raised,
        due: next,
        store,
    })
}

// V or R of a lane; not where there is no such lane.
pub fn put(x: Vault, which: LaneCounter, lane: u8, value: u64, next: Due) -> Option<Step>
    ensures { result ≡ put which x lane value next }
{
    if LANES <= lane {
        return None;
    }
    let store = which.store(lane, value);
    let set = vault::after(x, store);
    Some(Step {
        vault: set,
        due: next,
        store,
    })
}

// A call that takes the step of a vault number: its numbers, the store due behind it and the store named. Without a step it
// is refused (1), and the state stays as it is.
#[tactic(auto, unfolding(protocol::specs::Steps::stepped, protocol::specs::Said::shown_as, protocol::specs::Said::shown, protocol::specs::Said::number_of, protocol::specs::Said::values_of))]
pub fn stepped(c: &mut State, step: Option<Step>) -> Outcome
    ensures { shown_as (record { state = c.new; outcome = result }) [] ≡ stepped c.old step }
{
    let Some(set) = step else {
        return Err(Refusal::Condition);
    };
    c.vault = set.vault;
    c.due = set.due;
    Ok(Taken {
        store: set.store,
        len: 0,
    })
}

// Seals a table under a key as a checkpoint file at the start of out. It refuses an output with no room; out is then
// as it came.
pub fn put_table(
    key: [u8; 16],
    version: u64,
    seal: u64,
    t: Table,
    out: &mut [u8],
) -> Result<usize, Short>
    ensures answer { result ≡ file_answer (length out.old) }
    ensures buffer { out.new ≡ put_over (file_put (file_answer (length out.old)) (file_bytes (aes_gcm key) version seal t)) out.old }
    ensures long { length (file_bytes (aes_gcm key) version seal t) ≡ file_len }
{
    let key = gcm::prepare(key);
    sealed::file::seal_file(key.lend(), version, seal, t, out)
}

// Puts the file out, with version S + 1 and N as its seal number. It refuses an S at the maximum (1), and an output
// with no room for the file (3), before the key is prepared; the state then stays as it is.
pub fn file_step(c: &mut State, next: Due, out: &mut [u8]) -> Outcome
    ensures answer { shown_as (record { state = c.new; outcome = result }) (file_step c.old (length out.old) next).put ≡ file_step c.old (length out.old) next }
    ensures bytes { out.new ≡ put_over (file_step c.old (length out.old) next).put out.old }
{
    let s = c.vault.s;
    if COUNTER_MAX <= s {
        return Err(Refusal::Condition);
    }
    if out.len() < FILE_LEN {
        return Err(Refusal::Length { right: FILE_LEN });
    }
    let version = s + 1;
    let seal = c.vault.n;
    let _ = put_table(c.key, version, seal, c.table, out);
    c.due = next;
    Ok(Taken {
        store: Store::File,
        len: FILE_LEN,
    })
}
