// The listed records (01, Operations, Point): which of them stand at or above a position, how many numbers of each lane
// lie below it, and whether one below it is not visible.
//
// A listed record's number is W of its lane less the listed records of that lane behind it, so the walk that looks at numbers
// goes from the last record to the first. Nothing public here has a `requires`: a count above 128 lists 128 records.
ghost use Rattle.std.specs.Prelude.{◌≡◌, ◌≤◌, length};
ghost use Rattle.protocol.specs.States.{listed};
ghost use Rattle.protocol.specs.Point.{marks_of, marks_from, unseen_below, journal_of, counts_at};
ghost use Rattle.journal.specs.Less.{one_less};

use protocol::{Journal, LISTED, Lanes, Vault};

// How many records are listed.
#[tactic(auto, using(crate::proofs::MarkLaws::length_marks), unfolding(protocol::specs::Point::marks_of))]
fn listed_in(j: Journal) -> usize
    ensures count { result ≡ length (marks_of j) }
    ensures room { result ≤ listed }
{
    j.count.min(LISTED)
}

// The numbers of the lanes with that of a lane less 1; a 0 stays, and a lane above 7 changes nothing.
#[tactic(auto, unfolding(crate::specs::Less::one_less))]
fn one_less(a: Lanes, lane: u8) -> Lanes
    ensures { result ≡ one_less a lane }
{
    let k = vault::lane_at(a, lane);
    vault::lane_set(a, lane, k.saturating_sub(1))
}

// For each lane how many numbers lie below a position: W less the listed records at or above it.
pub fn counts_at(x: Vault, j: Journal, position: u64) -> Lanes
    ensures { result ≡ counts_at x.w (marks_from position (marks_of j)) }
{
    let n = listed_in(j);
    j.positions[..n]
        .iter()
        .zip(&j.lanes[..n])
        .filter(|(p, _)| position <= **p)
        .map(|(_, lane)| *lane)
        .fold(x.w, one_less)
}

// Whether a listed record below a position is not visible.
pub fn unseen_below(j: Journal, x: Vault, position: u64) -> bool
    ensures { result ≡ unseen_below position x.w x.v (marks_of j) }
{
    let n = listed_in(j);
    let w = x.w;
    let v = x.v;
    let positions = j.positions[..n].iter().rev();
    let lanes = j.lanes[..n].iter().rev();
    let (_, unseen) = positions
        .zip(lanes)
        .fold((w, false), |(left, unseen), (p, lane)| {
            let number = vault::lane_at(left, *lane);
            let seen = vault::lane_at(v, *lane);
            (
                one_less(left, *lane),
                ((*p < position) & (seen < number)) | unseen,
            )
        });
    unseen
}

// The listed records at or above a position, with empty places behind. The count is the state's own field, in the layout that the C
// interface has, so it rises with what it counts. Not one function with `points::dropped_to`, which keeps one array of structs.
pub fn journal_from(j: Journal, position: u64) -> Journal
    ensures { result ≡ journal_of (marks_from position (marks_of j)) j.used j.last }
{
    let n = listed_in(j);
    let mut kept = crate::no_journal();
    for (p, lane) in j.positions[..n].iter().zip(&j.lanes[..n]) {
        if position <= *p {
            kept.positions[kept.count] = *p;
            kept.lanes[kept.count] = *lane;
            kept.count += 1;
        }
    }
    kept.used = j.used;
    kept.last = j.last;
    kept
}
