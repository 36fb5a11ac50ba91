// Records, checkpoint files and the table as a C program calls them, for the tests against a model and for the bench.
//
// A key is prepared into two arrays that the caller keeps, and is then lent to each call. A table crosses as its text.
#![tactic(auto)]

ghost use Rattle.std.specs.Prelude.{◌≡◌, cond, eqb, length};
ghost use Rattle.gcm.specs.Key.{prepared};
ghost use Rattle.octets.specs.Lists.{over, put_over};
ghost use Rattle.sealed.specs.Aead.{prepared_by};
ghost use Rattle.sealed.specs.Record.{record_answer, record_put, record_bytes, open_record, shown_record};
ghost use Rattle.sealed.specs.Log.{record_at};
ghost use Rattle.sealed.specs.Checkpoint.{open_file, shown_file};
ghost use Rattle.test_sealed.specs.Boundary.{record_code, file_code, record_reply, record_text, file_reply, file_text, put_file_number, put_file_buffer, enter_number, enter_buffer, each_number, each_buffer};

use gcm::KeyRef;
use sealed::file::Short;
use sealed::record::{RecordError, RecordRead};
use sealed::{file, record};
use transaction::MAX_TEXT;

// What a record's head says: code 0 where the record opens, and else 9 with zeros. A number, and not an Option, since C reads it.
#[repr(C)]
#[derive(Clone, Copy)]
pub struct RecordReply {
    pub code: u64,
    pub lane: u64,
    pub epoch: u64,
    pub number: u64,
    pub len: u64,
}

// What a file's head says: code 0 where the file opens, and else 9 with zeros, as there.
#[repr(C)]
#[derive(Clone, Copy)]
pub struct FileReply {
    pub code: u64,
    pub version: u64,
    pub seal: u64,
}

// The two parts of a prepared key, as the caller keeps them.
fn lent<'a>(w: &'a [u32; 44], m: &'a [u64; 1024]) -> KeyRef<'a>
    ensures schedule { result.schedule.now ≡ w.now }
    ensures multiples { result.multiples.now ≡ m.now }
{
    KeyRef {
        schedule: w,
        multiples: m,
    }
}

// The numbers of the answers. Numbers, and not the enums, since C reads them.
fn record_code(answer: Result<usize, RecordError>) -> u64
    ensures { result ≡ record_code answer }
{
    match answer {
        Ok(_) => 0,
        Err(RecordError::Short(_)) => 3,
        Err(RecordError::Text) => 4,
        Err(RecordError::Lane) => 5,
    }
}

fn file_code(answer: Result<usize, Short>) -> u64
    ensures { result ≡ file_code answer }
{
    match answer {
        Ok(_) => 0,
        Err(_) => 3,
    }
}

// Hands over what a record holds: its numbers, and the bytes of its text over the start of text; zeros where nothing opens.
fn hand_record(read: Option<RecordRead>, text: &mut [u8]) -> RecordReply
    ensures answer { result ≡ record_reply read }
    ensures buffer { text.new ≡ over (record_text read) text.old }
{
    let Some(r) = read else {
        octets::copy(&[0u8; MAX_TEXT], text);
        return RecordReply {
            code: 9,
            lane: 0,
            epoch: 0,
            number: 0,
            len: 0,
        };
    };
    octets::copy(&r.text, text);
    RecordReply {
        code: 0,
        lane: r.lane as u64,
        epoch: r.epoch,
        number: r.number,
        len: r.len as u64,
    }
}

// Prepares a key: 0, or 1 where it is not 16 bytes long. `test_cipher` exports the same under its own name.
#[unsafe(no_mangle)]
pub extern "C" fn sealed_prepare(key: &[u8], w: &mut [u32; 44], m: &mut [u64; 1024]) -> u64
    ensures answer { result ≡ cond (eqb (length key.now) 16) 0 1 }
    ensures schedule { w.new ≡ cond (eqb (length key.now) 16) (prepared key.now).schedule w.old }
    ensures multiples { m.new ≡ cond (eqb (length key.now) 16) (prepared key.now).multiples m.old }
{
    let Ok(key) = <[u8; 16]>::try_from(key) else {
        return 1;
    };
    *w = gcm::prepare_in(key, m);
    0
}

// Seals a transaction as a record at the start of out.
#[unsafe(no_mangle)]
pub extern "C" fn sealed_put_record<'a>(
    w: &'a [u32; 44],
    m: &'a [u64; 1024],
    lane: u8,
    epoch: u64,
    number: u64,
    text: &[u8],
    out: &mut [u8],
) -> u64
    ensures answer { result ≡ record_code (record_answer text.now lane (length out.old)) }
    ensures buffer { out.new ≡ put_over (record_put (record_answer text.now lane (length out.old)) (record_bytes (prepared_by w.now m.now) lane epoch number text.now)) out.old }
{
    let key = lent(w, m);
    record_code(record::seal_record(key, lane, epoch, number, text, out))
}

// Opens all of s as a record, and puts the 136 bytes of its text, zeros behind the transaction, over the start of text.
#[unsafe(no_mangle)]
pub extern "C" fn sealed_open_record<'a>(
    w: &'a [u32; 44],
    m: &'a [u64; 1024],
    s: &[u8],
    text: &mut [u8],
) -> RecordReply
    ensures answer { result ≡ record_reply (shown_record (open_record (prepared_by w.now m.now) s.now)) }
    ensures buffer { text.new ≡ over (record_text (shown_record (open_record (prepared_by w.now m.now) s.now))) text.old }
{
    hand_record(record::open_record(lent(w, m), s), text)
}

// The same of the whole record that starts at an offset of a log.
#[unsafe(no_mangle)]
pub extern "C" fn sealed_open_at<'a>(
    w: &'a [u32; 44],
    m: &'a [u64; 1024],
    log: &[u8],
    at: usize,
    text: &mut [u8],
) -> RecordReply
    ensures answer { result ≡ record_reply (shown_record (record_at (prepared_by w.now m.now) log.now at)) }
    ensures buffer { text.new ≡ over (record_text (shown_record (record_at (prepared_by w.now m.now) log.now at))) text.old }
{
    hand_record(record::open_at(lent(w, m), log, at), text)
}

// Seals the table whose text is given as a checkpoint file at the start of out.
#[unsafe(no_mangle)]
pub extern "C" fn sealed_put_file<'a>(
    w: &'a [u32; 44],
    m: &'a [u64; 1024],
    version: u64,
    seal: u64,
    text: &[u8],
    out: &mut [u8],
) -> u64
    ensures answer { result ≡ put_file_number text.now out.old }
    ensures buffer { out.new ≡ put_file_buffer (prepared_by w.now m.now) version seal text.now out.old }
{
    let Some(t) = table::table_in(text) else {
        return 4;
    };
    let key = lent(w, m);
    file_code(file::seal_file(key, version, seal, t, out))
}

// Opens all of s as a checkpoint file, and puts the text of its table, the empty one's where it does not open, over the
// start of text.
#[unsafe(no_mangle)]
pub extern "C" fn sealed_open_file<'a>(
    w: &'a [u32; 44],
    m: &'a [u64; 1024],
    s: &[u8],
    text: &mut [u8],
) -> FileReply
    ensures answer { result ≡ file_reply (shown_file (open_file (prepared_by w.now m.now) s.now)) }
    ensures buffer { text.new ≡ over (file_text (shown_file (open_file (prepared_by w.now m.now) s.now))) text.old }
{
    let key = lent(w, m);
    let Some(f) = file::open_file(key, s) else {
        table::put_text(table::empty(), text);
        return FileReply {
            code: 9,
            version: 0,
            seal: 0,
        };
    };
    table::put_text(f.table, text);
    FileReply {
        code: 0,
        version: f.version,
        seal: f.seal,
    }
}

// Enters a transaction of a lane and number into the table whose text is given, and puts its text back.
#[unsafe(no_mangle)]
pub extern "C" fn sealed_enter(text: &mut [u8], s: &[u8], lane: u8, number: u64) -> u64
    ensures answer { result ≡ enter_number text.old s.now }
    ensures buffer { text.new ≡ enter_buffer text.old s.now lane number }
{
    let Some(t) = table::table_in(text) else {
        return 4;
    };
    if !transaction::legal(s) {
        return 4;
    }
    table::put_text(table::enter(t, s, lane, number), text);
    0
}

// Enters transactions of the most writes, which stand end to end, all under one lane and number, into the table whose
// text is given, and puts its text back: for the bench.
#[unsafe(no_mangle)]
pub extern "C" fn sealed_enter_each(text: &mut [u8], s: &[u8], lane: u8, number: u64) -> u64
    ensures answer { result ≡ each_number text.old }
    ensures buffer { text.new ≡ each_buffer text.old s.now lane number }
{
    let Some(mut t) = table::table_in(text) else {
        return 4;
    };
    for bytes in s.chunks_exact(MAX_TEXT) {
        t = table::enter(t, bytes, lane, number);
    }
    table::put_text(t, text);
    0
}
