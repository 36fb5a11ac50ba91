// Checkpoint (01, Operations): stores N + 1, the file of the whole table with version S + 1 and the raised N as seal
// number, then S + 1. Points set before it began are then covered. Three calls, each naming one store.
#![tactic(auto)]

ghost use Rattle.std.specs.Prelude.{◌≡◌, [], length};
ghost use Rattle.octets.specs.Lists.{put_over};
ghost use Rattle.protocol.specs.Said.{shown_as};
ghost use Rattle.protocol.specs.Checkpoint.{checkpoint_first, checkpoint_last, checkpoint};

use protocol::{Answer, CheckpointStep, Due, Outcome, Refusal, State};
use steps::Counter;
use vault::COUNTER_MAX;

// The call that names N. It refuses an S or N at the maximum (8).
#[tactic(auto, unfolding(protocol::specs::Checkpoint::checkpoint_first, protocol::specs::Said::refuse, protocol::specs::Said::shown_as, protocol::specs::Said::shown, protocol::specs::Said::number_of, protocol::specs::Said::values_of))]
fn first_call(c: &mut State) -> Outcome
    ensures { shown_as (record { state = c.new; outcome = result }) [] ≡ checkpoint_first c.old }
{
    if (COUNTER_MAX <= c.vault.s) | (COUNTER_MAX <= c.vault.n) {
        return Err(Refusal::Spent);
    }
    let next = Due::Checkpoint {
        step: CheckpointStep::File,
    };
    let step = steps::raise(c.vault, Counter::N, next);
    steps::stepped(c, step)
}

// The call that names S, behind which the points are covered. It refuses an S at the maximum (1).
#[tactic(auto, unfolding(protocol::specs::Checkpoint::checkpoint_last, protocol::specs::Checkpoint::checkpointed, protocol::specs::Steps::raise_s, protocol::specs::Steps::stands_if, protocol::specs::Steps::stepped, protocol::specs::Said::refuse, protocol::specs::Said::shown_as, protocol::specs::Said::shown, protocol::specs::Said::number_of, protocol::specs::Said::values_of))]
fn last_call(c: &mut State) -> Outcome
    ensures { shown_as (record { state = c.new; outcome = result }) [] ≡ checkpoint_last c.old }
{
    let step = steps::raise(c.vault, Counter::S, Due::Nothing);
    let taken = steps::stepped(c, step)?;
    c.points = journal::points::covered_points(c.points);
    Ok(taken)
}

// Checkpoint: names N, puts the file out, names S, a call each. It refuses a state that is not valid and in service,
// has another operation's store due, or goes on with S at the maximum (1), an output with no room for the file (3), and
// a first call with S or N at the maximum (8).
#[tactic(auto, unfolding(protocol::specs::Checkpoint::checkpoint, protocol::specs::Checkpoint::checkpoint_due, protocol::specs::Checkpoint::checkpoint_step, octets::specs::Lists::put_over, protocol::specs::Said::refuse, protocol::specs::Said::shown_as, protocol::specs::Said::shown, protocol::specs::Said::number_of, protocol::specs::Said::values_of))]
pub fn checkpoint(mut c: State, out: &mut [u8]) -> Answer
    ensures answer { shown_as result (checkpoint c (length out.old)).put ≡ checkpoint c (length out.old) }
    ensures bytes { out.new ≡ put_over (checkpoint c (length out.old)).put out.old }
{
    let fine = state::valid(&c);
    let on = state::serving(c.phase);
    if !(fine & on) {
        return state::refused(c, Refusal::Condition);
    }
    let due = c.due;
    let outcome = match due {
        Due::Nothing => first_call(&mut c),
        Due::Checkpoint { step } => match step {
            CheckpointStep::File => {
                let next = Due::Checkpoint {
                    step: CheckpointStep::Version,
                };
                steps::file_step(&mut c, next, out)
            }
            CheckpointStep::Version => last_call(&mut c),
        },
        _ => Err(Refusal::Condition),
    };
    Answer { state: c, outcome }
}
