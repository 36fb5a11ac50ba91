// The points (01, Operations, Point, Checkpoint and Truncate): one more, all of them covered, one found by its position,
// and those above a position.
//
// Nothing here has a `requires`: where 8 points are kept no more is added, and a count above 8 keeps 8 points.
ghost use Rattle.std.specs.Prelude.{◌≡◌, ◌≤◌, length};
ghost use Rattle.protocol.specs.States.{points_max};
ghost use Rattle.protocol.specs.Checkpoint.{covered_point, covered_points};
ghost use Rattle.protocol.specs.Truncate.{points_of, find_point, dropped_to};
ghost use Rattle.journal.specs.Beyond.{points_if};

use protocol::{POINTS, Point, Points};

// The points with one more, now the newest; where 8 are kept they stay as they are. Not one function with `listed_more`: the two
// types are layouts of the C interface, one array here and two arrays there.
#[tactic(auto, unfolding(crate::specs::Beyond::points_if, protocol::specs::Point::points_more))]
pub fn points_more(p: Points, q: Point) -> Points
    ensures { result ≡ points_if p q }
{
    let n = p.count;
    if POINTS <= n {
        return p;
    }
    let mut next = p;
    next.items[n] = q;
    next.count = n + 1;
    next.any = true;
    next.newest = q.position;
    next
}

// A point with a checkpoint that covers it.
#[tactic(auto, unfolding(protocol::specs::Checkpoint::covered_point))]
fn covered_point(q: Point) -> Point
    ensures { result ≡ covered_point q }
{
    Point { covered: true, ..q }
}

// The points, each covered.
pub fn covered_points(p: Points) -> Points
    ensures { result ≡ covered_points p }
{
    Points {
        items: p.items.map(covered_point),
        ..p
    }
}

// How many points are kept.
#[tactic(auto, unfolding(protocol::specs::Truncate::points_of))]
fn kept_in(p: Points) -> usize
    ensures count { result ≡ length (points_of p) }
    ensures room { result ≤ points_max }
{
    p.count.min(POINTS)
}

// The first point kept at a position.
pub fn find_point(p: Points, position: u64) -> Option<Point>
    ensures { result ≡ find_point position (points_of p) }
{
    p.items[..kept_in(p)]
        .iter()
        .find(|q| q.position == position)
        .copied()
}

// The points above a position, with empty places behind. The count is the state's own field, in the layout that the C interface
// has, so it rises with what it counts. Not one function with `marks::journal_from`, which keeps two arrays of numbers.
pub fn dropped_to(p: Points, position: u64) -> Points
    ensures { result ≡ dropped_to p position }
{
    let mut items = [crate::no_point(); POINTS];
    let mut count: usize = 0;
    let kept = &p.items[..kept_in(p)];
    for q in kept {
        if position < q.position {
            items[count] = *q;
            count += 1;
        }
    }
    Points { items, count, ..p }
}
