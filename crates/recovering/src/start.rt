// What the first call of Recover (01, Operations) reads: the checkpoint and the log are read where they lie, with the key
// prepared once.
ghost use Rattle.std.specs.Prelude.{◌≡◌};
ghost use Rattle.sealed.specs.Aead.{aes_gcm, prepared_by};
ghost use Rattle.protocol.specs.Recover.{spent, read_from};
ghost use Rattle.replay.specs.Rules.{read_of};

use gcm::KeyRef;
use protocol::{Refusal, Vault};
use replay::LogRead;
use vault::COUNTER_MAX;

// The most that S and N may be at recovery, which raises each of them twice.
const RAISED_MAX: u64 = COUNTER_MAX - 2;

// Whether S or N has no room for two more, or E for one.
#[tactic(auto, unfolding(protocol::specs::Recover::spent))]
pub fn spent(x: Vault) -> bool
    ensures { result ≡ spent x }
{
    (RAISED_MAX < x.s) | (RAISED_MAX < x.n) | (COUNTER_MAX <= x.e)
}

// Reads the checkpoint and the log, under a prepared key. It refuses a checkpoint that does not open, or is there while S
// is 0 (9), one of another version than S (12), and what the log rules refuse.
#[tactic(auto, using(sealed::proofs::FileLaws::shown_file_some, sealed::proofs::FileLaws::shown_file_none), unfolding(protocol::specs::Recover::read_from, protocol::specs::Recover::read_file, protocol::specs::Recover::other_version, protocol::specs::Replay::or_stop, replay::specs::Rules::read_of, protocol::specs::Said::number_of, protocol::specs::Said::values_of))]
fn read_under(k: KeyRef<'_>, x: Vault, checkpoint: &[u8], log: &[u8]) -> Result<LogRead, Refusal>
    ensures { read_of result ≡ read_from (prepared_by k.entry.schedule.now k.entry.multiples.now) x checkpoint.now log.now }
{
    if x.s == 0 {
        if checkpoint.len() != 0 {
            return Err(Refusal::Closed { offset: 0 });
        }
        return replay::replay(k, x, table::empty(), log);
    }
    let Some(file) = sealed::file::open_file(k, checkpoint) else {
        return Err(Refusal::Closed { offset: 0 });
    };
    if file.version != x.s {
        return Err(Refusal::Version);
    }
    replay::replay(k, x, file.table, log)
}

// Reads the checkpoint and the log under a key.
pub fn read(key: [u8; 16], x: Vault, checkpoint: &[u8], log: &[u8]) -> Result<LogRead, Refusal>
    ensures { read_of result ≡ read_from (aes_gcm key) x checkpoint.now log.now }
{
    let key = gcm::prepare(key);
    read_under(key.lend(), x, checkpoint, log)
}
