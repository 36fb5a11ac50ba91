// The collector as a C program calls it: 01's eight operations, what a host and a screen ask of a state, and 02's functions
// beside them. The header is include/paviluko.h.
//
// The host keeps the state and hands it over by value; the reply has the next state, by value too. Nothing is kept between
// calls. Each promise is that of 01's definition, carried over the boundary by `thaw` and `reply_to`; a state whose numbers
// are not known is refused with 1 and handed back as it came.
#![tactic(auto)]

ghost use Rattle.std.specs.Prelude.{◌≡◌, length, get_or};
ghost use Rattle.octets.specs.Lists.{put_over};
ghost use Rattle.transaction.specs.Edition.{present};
ghost use Rattle.table.specs.Table.{no_entry};
ghost use Rattle.protocol.specs.Load.{load};
ghost use Rattle.protocol.specs.Accept.{accept, seal};
ghost use Rattle.protocol.specs.Commit.{commit};
ghost use Rattle.protocol.specs.Point.{point};
ghost use Rattle.protocol.specs.Checkpoint.{checkpoint};
ghost use Rattle.protocol.specs.Truncate.{truncate};
ghost use Rattle.protocol.specs.Recover.{recover};
ghost use Rattle.bus.specs.Answer.{from_bus};
ghost use Rattle.heat.specs.Answer.{heat_split};
ghost use Rattle.heat.specs.Plain.{plain_table};
ghost use Rattle.boundary.specs.Flat.{thaw};
ghost use Rattle.boundary.specs.Replies.{said_of, reply_of, reply_to, put_to};

use boundary::{DueNumbers, FlatState, Reply, Said};
use protocol::{State, Vault};
use table::Entry;

// ---- the operations

// Not over closures around the one call that differs: when both were measured, Recover took 152.9 KB of stack so and 121.6 as
// it stands, of the 128 that PAVILUKO_STACK allows.

// Load: the vault's numbers and a key of 16 bytes make a cold collector. Refuses with 2 and 3; what it then hands back is a
// collector that turns down every call with 1.
#[unsafe(no_mangle)]
pub extern "C" fn paviluko_load(x: Vault, key: &[u8]) -> Reply
    ensures { result ≡ reply_of (load x key.now) }
{
    Reply::from(loading::load(x, key))
}

// Accept: a transaction is held under the next number of its lane. Names the store of W. Refuses with 1 and 4 to 8.
#[unsafe(no_mangle)]
#[tactic(auto, unfolding(boundary::specs::Replies::reply_to, protocol::specs::Said::shown_as))]
pub extern "C" fn paviluko_accept(
    s: FlatState,
    transaction: &[u8],
    lane: u8,
    position: u64,
) -> Reply
    ensures { result ≡ reply_to s (accept (thaw s) transaction.now lane position) }
{
    if !boundary::known(s.due, s.phase) {
        return boundary::not_a_state(s);
    }
    Reply::from(accepting::accept(State::from(s), transaction, lane, position))
}

// Seal: the record of the transaction held, at the start of out. Names the record's store. Refuses with 1 and 3.
#[unsafe(no_mangle)]
#[tactic(auto, unfolding(boundary::specs::Replies::reply_to, boundary::specs::Replies::put_to, boundary::specs::Replies::reply_of, protocol::specs::Said::shown_as))]
pub extern "C" fn paviluko_seal(s: FlatState, out: &mut [u8]) -> Reply
    ensures answer { result ≡ reply_to s (seal (thaw s) (length out.old)) }
    ensures bytes { out.new ≡ put_over (put_to s (seal (thaw s) (length out.old))) out.old }
{
    if !boundary::known(s.due, s.phase) {
        return boundary::not_a_state(s);
    }
    Reply::from(accepting::seal(State::from(s), out))
}

// Commit: the bytes of a record, from the card, make its transaction visible. Names the store of V. Refuses with 1, 9, 10
// and 11.
#[unsafe(no_mangle)]
#[tactic(auto, unfolding(boundary::specs::Replies::reply_to, protocol::specs::Said::shown_as))]
pub extern "C" fn paviluko_commit(s: FlatState, bytes: &[u8]) -> Reply
    ensures { result ≡ reply_to s (commit (thaw s) bytes.now) }
{
    if !boundary::known(s.due, s.phase) {
        return boundary::not_a_state(s);
    }
    Reply::from(committing::commit(State::from(s), bytes))
}

// Point: a position below which every accepted record is visible. Names no store. Refuses with 1, 6, 7 and 15.
#[unsafe(no_mangle)]
#[tactic(auto, unfolding(boundary::specs::Replies::reply_to, protocol::specs::Said::shown_as))]
pub extern "C" fn paviluko_point(s: FlatState, position: u64) -> Reply
    ensures { result ≡ reply_to s (point (thaw s) position) }
{
    if !boundary::known(s.due, s.phase) {
        return boundary::not_a_state(s);
    }
    Reply::from(pointing::point(State::from(s), position))
}

// Checkpoint, in three calls: the store of N, the file at the start of out, the store of S. Refuses with 1, 3 and 8.
#[unsafe(no_mangle)]
#[tactic(auto, unfolding(boundary::specs::Replies::reply_to, boundary::specs::Replies::put_to, boundary::specs::Replies::reply_of, protocol::specs::Said::shown_as))]
pub extern "C" fn paviluko_checkpoint(s: FlatState, out: &mut [u8]) -> Reply
    ensures answer { result ≡ reply_to s (checkpoint (thaw s) (length out.old)) }
    ensures bytes { out.new ≡ put_over (put_to s (checkpoint (thaw s) (length out.old))) out.old }
{
    if !boundary::known(s.due, s.phase) {
        return boundary::not_a_state(s);
    }
    Reply::from(checkpointing::checkpoint(State::from(s), out))
}

// Truncate at a covered point, in nine calls: the stores of R of lanes 0 to 7, and the deletion. Refuses with 1 and 14.
#[unsafe(no_mangle)]
#[tactic(auto, unfolding(boundary::specs::Replies::reply_to, protocol::specs::Said::shown_as))]
pub extern "C" fn paviluko_truncate(s: FlatState, position: u64) -> Reply
    ensures { result ≡ reply_to s (truncate (thaw s) position) }
{
    if !boundary::known(s.due, s.phase) {
        return boundary::not_a_state(s);
    }
    Reply::from(truncating::truncate(State::from(s), position))
}

// Recover, in 15 or 24 calls: the first reads checkpoint and log, and names the first store; the others name the other
// stores, two of them with a file at the start of out. Refuses with 1, 3, 8 to 13.
#[unsafe(no_mangle)]
#[tactic(auto, unfolding(boundary::specs::Replies::reply_to, boundary::specs::Replies::put_to, boundary::specs::Replies::reply_of, protocol::specs::Said::shown_as))]
pub extern "C" fn paviluko_recover(
    s: FlatState,
    checkpoint: &[u8],
    log: &[u8],
    out: &mut [u8],
) -> Reply
    ensures answer { result ≡ reply_to s (recover (thaw s) checkpoint.now log.now (length out.old)) }
    ensures bytes { out.new ≡ put_over (put_to s (recover (thaw s) checkpoint.now log.now (length out.old))) out.old }
{
    if !boundary::known(s.due, s.phase) {
        return boundary::not_a_state(s);
    }
    Reply::from(recovering::recover(State::from(s), checkpoint, log, out))
}

// ---- from the wired bus

// The reading of an M-Bus reply as a transaction of one write, at the start of out. Names no store. Refuses with 3, 4, 16
// and 17.
#[unsafe(no_mangle)]
pub extern "C" fn paviluko_from_bus(frame: &[u8], meter: u16, stamp: u64, out: &mut [u8]) -> Said
    ensures answer { result ≡ said_of (from_bus frame.now meter stamp (length out.old)).said }
    ensures bytes { out.new ≡ put_over (from_bus frame.now meter stamp (length out.old)).put out.old }
{
    Said::from(bus::from_bus(frame, meter, stamp, out))
}

// ---- the yearly heat split

// The lines of the heat split of two plain tables, the start's first, at the start of out. Names no store. Refuses with 4,
// 18, 19, and then 3.
#[unsafe(no_mangle)]
pub extern "C" fn paviluko_heat_split(tables: &[u8], out: &mut [u8]) -> Said
    ensures answer { result ≡ said_of (heat_split tables.now (length out.old)).said }
    ensures bytes { out.new ≡ put_over (heat_split tables.now (length out.old)).put out.old }
{
    Said::from(heat::heat_split(tables, out))
}

// The plain table of a state, at the start of out. Names no store. Refuses with 3.
#[unsafe(no_mangle)]
pub extern "C" fn paviluko_plain_table(s: FlatState, out: &mut [u8]) -> Said
    ensures answer { result ≡ said_of (plain_table s.table (length out.old)).said }
    ensures bytes { out.new ≡ put_over (plain_table s.table (length out.old)).put out.old }
{
    Said::from(heat::plain_table(s.table, out))
}

// ---- for a host and a screen

// The edition: how many of the requests of document 02 this interface has.
#[unsafe(no_mangle)]
pub extern "C" fn paviluko_edition() -> u64
    ensures { result ≡ present.requests }
{
    boundary::EDITION
}

// The latest reading of a meter, with its code, its stamp, and the lane and number of its transaction.
#[unsafe(no_mangle)]
pub extern "C" fn paviluko_reading(s: FlatState, meter: u8) -> Entry
    ensures { result ≡ get_or s.table.entries meter no_entry }
{
    s.table.entries[usize::from(meter)]
}

// The vault's 27 numbers, as they stand when the store named last is done.
#[unsafe(no_mangle)]
pub extern "C" fn paviluko_numbers(s: FlatState) -> Vault
    ensures { result ≡ s.vault }
{
    s.vault
}

// The phase: 1 cold, 2 recovering, 3 in service.
#[unsafe(no_mangle)]
pub extern "C" fn paviluko_phase(s: FlatState) -> u8
    ensures { result ≡ s.phase }
{
    s.phase
}

// The store that is due, if one is: then only the call that names it, or a Load, is taken.
#[unsafe(no_mangle)]
pub extern "C" fn paviluko_due_store(s: FlatState) -> DueNumbers
    ensures { result ≡ s.due }
{
    s.due
}

// How many accepted records are listed, of the 128 that may stand at or above the newest point.
#[unsafe(no_mangle)]
pub extern "C" fn paviluko_records(s: FlatState) -> u64
    ensures { result ≡ s.journal.count }
{
    s.journal.count as u64
}

// How many points are kept, of the 8 that may be.
#[unsafe(no_mangle)]
pub extern "C" fn paviluko_points(s: FlatState) -> u64
    ensures { result ≡ s.points.count }
{
    s.points.count as u64
}
