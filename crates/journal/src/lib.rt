// What the collector lists and holds between its calls (01, Operations): the accepted records at or above the newest
// point, the points, and the transaction that Accept holds for Seal.
//
// All of it goes in and out by value. Nothing here has a `requires`: a full list stays as it is, and a text longer than
// any transaction is not held.
#![tactic(auto)]

ghost use Rattle.std.specs.Prelude.{◌≡◌};
ghost use Rattle.protocol.specs.States.{no_journal, no_point, no_points, no_held};
ghost use Rattle.protocol.specs.Accept.{too_low};
ghost use Rattle.journal.specs.Beyond.{listed_if, held_if};

use protocol::{Held, Journal, LISTED, POINTS, Point, Points};
use table::LANES;
use transaction::MAX_TEXT;

pub mod marks;
pub mod points;

// No record listed, and no position used.
pub fn no_journal() -> Journal
    ensures { result ≡ no_journal }
{
    Journal {
        positions: [0u64; LISTED],
        lanes: [0u8; LISTED],
        count: 0,
        used: false,
        last: 0,
    }
}

// The point of an empty place.
pub fn no_point() -> Point
    ensures { result ≡ no_point }
{
    Point {
        position: 0,
        counts: [0u64; LANES as usize],
        covered: false,
    }
}

// No point kept, and none set.
pub fn no_points() -> Points
    ensures { result ≡ no_points }
{
    Points {
        items: [no_point(); POINTS],
        count: 0,
        any: false,
        newest: 0,
    }
}

// No transaction held.
pub fn no_held() -> Held
    ensures { result ≡ no_held }
{
    Held {
        text: [0u8; MAX_TEXT],
        len: 0,
        lane: 0,
        position: 0,
    }
}

// The list with a record more, its position the last one used; a full list stays as it is.
#[tactic(auto, unfolding(crate::specs::Beyond::listed_if, protocol::specs::Accept::listed_more))]
pub fn listed_more(j: Journal, lane: u8, position: u64) -> Journal
    ensures { result ≡ listed_if j lane position }
{
    let n = j.count;
    if LISTED <= n {
        return j;
    }
    let mut next = j;
    next.positions[n] = position;
    next.lanes[n] = lane;
    next.count = n + 1;
    next.used = true;
    next.last = position;
    next
}

// Whether a position is not above the newest point, or not above the last position used.
#[tactic(auto, unfolding(protocol::specs::Accept::too_low))]
pub fn too_low(p: Points, j: Journal, position: u64) -> bool
    ensures { result ≡ too_low p j position }
{
    (p.any & (position <= p.newest)) | (j.used & (position <= j.last))
}

// The transaction held for Seal; a text longer than any transaction is not held.
#[tactic(auto, unfolding(crate::specs::Beyond::held_if, protocol::specs::Accept::holding))]
pub fn holding(text: &[u8], lane: u8, position: u64) -> Held
    ensures { result ≡ held_if text.now lane position }
{
    let len = text.len();
    if MAX_TEXT < len {
        return no_held();
    }
    let mut bytes = [0u8; MAX_TEXT];
    bytes[..len].copy_from_slice(text);
    Held {
        text: bytes,
        len,
        lane,
        position,
    }
}
