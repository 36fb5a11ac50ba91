// Point (01, Operations): a position above the newest point, with every accepted record below it visible.
#![tactic(auto)]

ghost use Rattle.std.specs.Prelude.{◌≡◌, []};
ghost use Rattle.protocol.specs.Said.{shown_as};
ghost use Rattle.protocol.specs.Point.{point};

use protocol::{Answer, POINTS, Point, Refusal, State, Store};

// Point: a position. It refuses a collector that is not ready (1), a position not above the newest point (6), a ninth
// point (7), and a position with an accepted record below it that is not visible (15).
#[tactic(auto, using(journal::proofs::BeyondLaws::points_room), unfolding(protocol::specs::Point::point, protocol::specs::Point::pointed, protocol::specs::Point::point_at, protocol::specs::Said::refuse, protocol::specs::Said::shown_as, protocol::specs::Said::shown, protocol::specs::Said::number_of, protocol::specs::Said::values_of))]
pub fn point(mut c: State, position: u64) -> Answer
    ensures { shown_as result [] ≡ point c position }
{
    if !state::ready(&c) {
        return state::refused(c, Refusal::Condition);
    }
    if c.points.any & (position <= c.points.newest) {
        return state::refused(c, Refusal::Position);
    }
    if POINTS <= c.points.count {
        return state::refused(c, Refusal::Full);
    }
    if journal::marks::unseen_below(c.journal, c.vault, position) {
        return state::refused(c, Refusal::Unseen);
    }
    let q = Point {
        position,
        counts: journal::marks::counts_at(c.vault, c.journal, position),
        covered: false,
    };
    c.journal = journal::marks::journal_from(c.journal, position);
    c.points = journal::points::points_more(c.points, q);
    state::taken(c, Store::Nothing, 0)
}
