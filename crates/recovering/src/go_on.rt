// The steps of Recover that go on with a recovery that was accepted (01, Operations): "N, checkpoint S + 1, S; the same
// three again; R = W for lanes 0 to 7; if any W ≠ V, also E + 1 and V = W for lanes 0 to 7; empty the log." Each tells the
// store that is due behind it.
ghost use Rattle.std.specs.Prelude.{◌≡◌};
ghost use Rattle.protocol.specs.declared.Due.TheVariants as D;
ghost use Rattle.protocol.specs.declared.RecoverStep.TheVariants as G;
ghost use Rattle.protocol.specs.Recover.{after_version, all_visible, after_r, after_v, recover_number};

use protocol::{Due, RecoverNumber, RecoverStep, Step, Vault};
use steps::{Counter, LaneCounter};
use table::LANES;

// A vault number is due.
fn number_due(number: RecoverNumber) -> Due
    ensures { result ≡ D.Recover (G.Number number) }
{
    Due::Recover {
        step: RecoverStep::Number { number },
    }
}

// Emptying the log is due.
fn empty_due() -> Due
    ensures { result ≡ D.Recover G.Empty }
{
    Due::Recover {
        step: RecoverStep::Empty,
    }
}

// Behind S: N of the second checkpoint, and behind that one's S the first R.
#[tactic(auto, unfolding(protocol::specs::Recover::after_version))]
fn after_version(second: bool) -> Due
    ensures { result ≡ after_version second }
{
    if second {
        return number_due(RecoverNumber::R { lane: 0 });
    }
    number_due(RecoverNumber::N)
}

// Whether every number handed out is visible: W = V of every lane. A loop over each of them, and no chain: of `all` the compiler
// makes a call of memcmp, a name that a host may not have.
#[tactic(auto, unfolding(protocol::specs::Recover::all_visible))]
fn all_visible(x: Vault) -> bool
    ensures { result ≡ all_visible x }
{
    let mut good = true;
    for lane in 0..LANES {
        let w = vault::lane_at(x.w, lane);
        let v = vault::lane_at(x.v, lane);
        good &= w == v;
    }
    good
}

// Behind R of a lane: R of the next, and behind the last E, or the emptying where every number is visible. Not one function with
// `after_v`: what is due behind the last lane differs.
#[tactic(auto, unfolding(protocol::specs::Recover::after_r))]
fn after_r(x: Vault, lane: u8) -> Due
    ensures { result ≡ after_r x lane }
{
    if lane < LANES - 1 {
        return number_due(RecoverNumber::R { lane: lane + 1 });
    }
    if all_visible(x) {
        return empty_due();
    }
    number_due(RecoverNumber::E)
}

// Behind V of a lane: V of the next, and behind the last the emptying.
#[tactic(auto, unfolding(protocol::specs::Recover::after_v))]
fn after_v(lane: u8) -> Due
    ensures { result ≡ after_v lane }
{
    if lane < LANES - 1 {
        return number_due(RecoverNumber::V { lane: lane + 1 });
    }
    empty_due()
}

// The step of a vault number: S + 1, N + 1, R = W of a lane, E + 1, V = W of a lane.
#[tactic(auto, unfolding(protocol::specs::Recover::recover_number))]
pub fn number_step(x: Vault, number: RecoverNumber) -> Option<Step>
    ensures { result ≡ recover_number x number }
{
    match number {
        RecoverNumber::S { second } => steps::raise(x, Counter::S, after_version(second)),
        RecoverNumber::N => {
            let next = Due::Recover {
                step: RecoverStep::File { second: true },
            };
            steps::raise(x, Counter::N, next)
        }
        RecoverNumber::R { lane } => {
            let w = vault::lane_at(x.w, lane);
            steps::put(x, LaneCounter::R, lane, w, after_r(x, lane))
        }
        RecoverNumber::E => {
            steps::raise(x, Counter::E, number_due(RecoverNumber::V { lane: 0 }))
        }
        RecoverNumber::V { lane } => {
            let w = vault::lane_at(x.w, lane);
            steps::put(x, LaneCounter::V, lane, w, after_v(lane))
        }
    }
}
