// Truncate (01, Operations): R of lanes 0 to 7 from the counts of a covered point, then the deletion of the records
// below it. Nine calls, each naming one store.
#![tactic(auto)]

ghost use Rattle.std.specs.Prelude.{◌≡◌, []};
ghost use Rattle.protocol.specs.Said.{shown_as};
ghost use Rattle.protocol.specs.Truncate.{after_truncate_r, truncate_lane, truncate_delete, truncate_due, truncate};

use journal::points;
use protocol::{Answer, Due, Outcome, Point, Refusal, State, Store, Taken, TruncateStep};
use steps::LaneCounter;
use table::LANES;

// The store that is due behind R of a lane: R of the next lane, or the deletion. Recover's steps by lane go to other stores behind the
// last lane.
#[tactic(auto, unfolding(protocol::specs::Truncate::after_truncate_r))]
fn after_r(lane: u8, position: u64) -> Due
    ensures { result ≡ after_truncate_r lane position }
{
    if lane < LANES - 1 {
        return Due::Truncate {
            position,
            step: TruncateStep::R { lane: lane + 1 },
        };
    }
    Due::Truncate {
        position,
        step: TruncateStep::Delete,
    }
}

// R of a lane is set to the point's count of it. It refuses a lane that there is not (1).
#[tactic(auto, unfolding(protocol::specs::Truncate::truncate_lane))]
fn lane_step(c: &mut State, position: u64, lane: u8, q: Point) -> Outcome
    ensures { shown_as (record { state = c.new; outcome = result }) [] ≡ truncate_lane c.old position lane q }
{
    let count = vault::lane_at(q.counts, lane);
    let next = after_r(lane, position);
    let step = steps::put(c.vault, LaneCounter::R, lane, count, next);
    steps::stepped(c, step)
}

// The point at a position and the older ones are dropped, and the deletion of the records below it is named.
#[tactic(auto, unfolding(protocol::specs::Truncate::truncate_delete, protocol::specs::Said::refuse, protocol::specs::Said::shown_as, protocol::specs::Said::shown, protocol::specs::Said::number_of, protocol::specs::Said::values_of))]
fn deleted(c: &mut State, position: u64) -> Outcome
    ensures { shown_as (record { state = c.new; outcome = result }) [] ≡ truncate_delete c.old position }
{
    c.points = points::dropped_to(c.points, position);
    c.due = Due::Nothing;
    Ok(Taken {
        store: Store::Delete { position },
        len: 0,
    })
}

// A call at a position, by the store that is due: the first R where none is. It refuses another operation's store, and
// another position or a point that is gone while it is truncating (1), and a position where no covered point stands (14).
#[tactic(auto, unfolding(protocol::specs::Truncate::truncate_due, protocol::specs::Truncate::truncate_first, protocol::specs::Truncate::truncate_next, protocol::specs::Truncate::truncate_step, protocol::specs::Truncate::uncovered, protocol::specs::Said::refuse, protocol::specs::Said::shown_as, protocol::specs::Said::shown, protocol::specs::Said::number_of, protocol::specs::Said::values_of))]
fn step(c: &mut State, position: u64) -> Outcome
    ensures { shown_as (record { state = c.new; outcome = result }) [] ≡ truncate_due c.old position c.old.due }
{
    let due = c.due;
    match due {
        Due::Nothing => {
            let Some(q) = points::find_point(c.points, position) else {
                return Err(Refusal::Point);
            };
            if !q.covered {
                return Err(Refusal::Point);
            }
            lane_step(c, position, 0, q)
        }
        Due::Truncate { position: at, step } => {
            if at != position {
                return Err(Refusal::Condition);
            }
            let TruncateStep::R { lane } = step else {
                return deleted(c, position);
            };
            let Some(q) = points::find_point(c.points, position) else {
                return Err(Refusal::Condition);
            };
            lane_step(c, position, lane, q)
        }
        _ => Err(Refusal::Condition),
    }
}

// Truncate: a position. It refuses a collector that is not in service, that has another store due, or that is
// truncating at another position (1), and a position where no covered point stands (14).
#[tactic(auto, unfolding(protocol::specs::Truncate::truncate, protocol::specs::Said::refuse, protocol::specs::Said::shown_as, protocol::specs::Said::shown, protocol::specs::Said::number_of, protocol::specs::Said::values_of))]
pub fn truncate(mut c: State, position: u64) -> Answer
    ensures { shown_as result [] ≡ truncate c position }
{
    let fine = state::valid(&c);
    let on = state::serving(c.phase);
    if !(fine & on) {
        return state::refused(c, Refusal::Condition);
    }
    let outcome = step(&mut c, position);
    Answer { state: c, outcome }
}
