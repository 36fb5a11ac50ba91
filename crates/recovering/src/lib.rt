// Recover (01, Operations): a cold collector is given a checkpoint and a log; where they are accepted, the stores of the
// recovery follow, one a call, and behind the last it is in service.
#![tactic(auto)]

ghost use Rattle.std.specs.Prelude.{◌≡◌, [], length};
ghost use Rattle.octets.specs.Lists.{put_over};
ghost use Rattle.protocol.specs.Said.{shown_as};
ghost use Rattle.protocol.specs.Recover.{recover_first, recover_step, recover};

use protocol::{
    Answer, Due, Outcome, Phase, RecoverNumber, RecoverStep, Refusal, State, Store, Taken,
};

mod go_on;
mod start;

// The most bytes of a log.
pub const LOG_MAX: usize = 262144;

// The first call, of a cold collector: where the checkpoint and the log read, it names the first N. It refuses a state that
// breaks its rule or has a store due (1), a log that is too long (3), a spent counter (8), and what does not read (9 to 13).
#[tactic(auto, unfolding(protocol::specs::Recover::recover_first, protocol::specs::Recover::spent, protocol::specs::Recover::recover_read, protocol::specs::Recover::recovered, protocol::specs::History::vault_after, replay::specs::Rules::read_of, protocol::specs::Said::refuse, protocol::specs::Said::shown_as, protocol::specs::Said::shown, protocol::specs::Said::number_of, protocol::specs::Said::values_of))]
fn first_call(c: &mut State, checkpoint: &[u8], log: &[u8]) -> Outcome
    ensures { shown_as (record { state = c.new; outcome = result }) [] ≡ recover_first c.old checkpoint.now log.now }
{
    let fine = state::valid(c);
    let free = state::is_nothing(c.due);
    if !(fine & free) {
        return Err(Refusal::Condition);
    }
    if LOG_MAX < log.len() {
        return Err(Refusal::Length { right: LOG_MAX });
    }
    let x = c.vault;
    if start::spent(x) {
        return Err(Refusal::Spent);
    }
    let read = start::read(c.key, x, checkpoint, log)?;
    let store = Store::N { value: x.n + 1 };
    c.vault = vault::after(x, store);
    c.phase = Phase::Recovering;
    c.due = Due::Recover {
        step: RecoverStep::File { second: false },
    };
    c.table = read.table;
    Ok(Taken { store, len: 0 })
}

// A later call, by the step that is due. It refuses an S at the maximum and a number that cannot be set (1), and an output
// with no room for the file (3).
#[tactic(auto, unfolding(protocol::specs::Recover::recover_step, protocol::specs::Recover::in_service, octets::specs::Lists::put_over, protocol::specs::Said::refuse, protocol::specs::Said::shown_as, protocol::specs::Said::shown, protocol::specs::Said::number_of, protocol::specs::Said::values_of))]
fn step(c: &mut State, step: RecoverStep, out: &mut [u8]) -> Outcome
    ensures answer { shown_as (record { state = c.new; outcome = result }) (recover_step c.old (length out.old) step).put ≡ recover_step c.old (length out.old) step }
    ensures bytes { out.new ≡ put_over (recover_step c.old (length out.old) step).put out.old }
{
    match step {
        RecoverStep::File { second } => {
            let number = RecoverNumber::S { second };
            let next = Due::Recover {
                step: RecoverStep::Number { number },
            };
            steps::file_step(c, next, out)
        }
        RecoverStep::Number { number } => {
            let set = go_on::number_step(c.vault, number);
            steps::stepped(c, set)
        }
        RecoverStep::Empty => {
            c.phase = Phase::Serving;
            c.due = Due::Nothing;
            c.journal = journal::no_journal();
            c.points = journal::no_points();
            Ok(Taken {
                store: Store::Empty,
                len: 0,
            })
        }
    }
}

// Recover: the first call of a cold collector looks at the checkpoint and the log, and names the first N; the later ones
// look at neither. It refuses a state that breaks its rule, a collector in service, a cold one with a store due, one that
// recovers with a store due that is not recovery's, and a number that cannot be set (1), a log that is too long or an
// output with no room for the file (3), a spent counter (8), and what does not read (9 to 13).
//
// The calls are lent the state, and the state that is handed back is the one that came, changed in place: passing the state
// is copying it, and each copy is stack.
#[tactic(auto, unfolding(protocol::specs::Recover::recover, protocol::specs::Recover::recover_phase, protocol::specs::Recover::recover_due, protocol::specs::States::valid, octets::specs::Lists::put_over, protocol::specs::Said::refuse, protocol::specs::Said::shown_as, protocol::specs::Said::shown, protocol::specs::Said::number_of, protocol::specs::Said::values_of))]
pub fn recover(mut c: State, checkpoint: &[u8], log: &[u8], out: &mut [u8]) -> Answer
    ensures answer { shown_as result (recover c checkpoint.now log.now (length out.old)).put ≡ recover c checkpoint.now log.now (length out.old) }
    ensures bytes { out.new ≡ put_over (recover c checkpoint.now log.now (length out.old)).put out.old }
{
    let outcome = match c.phase {
        Phase::Cold => first_call(&mut c, checkpoint, log),
        Phase::Recovering => {
            if !state::valid(&c) {
                return state::refused(c, Refusal::Condition);
            }
            let Due::Recover { step: due } = c.due else {
                return state::refused(c, Refusal::Condition);
            };
            step(&mut c, due, out)
        }
        Phase::Serving => Err(Refusal::Condition),
    };
    Answer { state: c, outcome }
}
