// A checkpoint file: its text is a table.
ghost use Rattle.std.specs.Prelude.{◌≡◌, length};
ghost use Rattle.std.specs.Bool.{OnTrue};
ghost use Rattle.octets.specs.Lists.{put_over};
ghost use Rattle.sealed.specs.Aead.{prepared_by};
ghost use Rattle.sealed.specs.Checkpoint.{file_len, file_head, file_bytes, file_answer, file_put, legal_file, open_file, shown_file};

use super::frame;
use super::frame::{FRAME_LEN, HEAD_LEN, nonce_of};
use gcm::KeyRef;
use octets::little;
use table::{TABLE_LEN, Table};

// The kind of a checkpoint file, a byte of the card's layout (01, Layouts), and the file's length.
pub const FILE_KIND: u8 = 2;

pub const FILE_LEN: usize = TABLE_LEN + FRAME_LEN;

// A file that was read.
#[derive(Clone, Copy)]
pub struct FileRead {
    pub version: u64,
    pub seal: u64,
    pub table: Table,
}

// The buffer has no room for a file: it needs so many bytes.
#[derive(Clone, Copy, Debug, PartialEq, Eq)]
pub struct Short {
    pub needed: usize,
}

// The 20 bytes of a head.
fn head_of(version: u64, seal: u64) -> [u8; HEAD_LEN]
    ensures { result ≡ file_head version seal }
{
    let mut h = [0u8; HEAD_LEN];
    h[0] = FILE_KIND;
    h[4..12].copy_from_slice(&little::bytes8(version));
    h[12..].copy_from_slice(&little::bytes8(seal));
    h
}

// Whether s has the length of a file, its kind and its three zero bytes.
fn legal_file(s: &[u8]) -> bool
    ensures answer { result ≡ legal_file s.now }
    ensures length { OnTrue result (length s.now ≡ file_len) }
{
    (s.len() == FILE_LEN) & s.starts_with(&[FILE_KIND, 0, 0, 0])
}

// Opens all of s as a checkpoint file.
// Not inlined: its stack is free again when the log is read.
#[inline(never)]
pub fn open_file(k: KeyRef<'_>, s: &[u8]) -> Option<FileRead>
    ensures { result ≡ shown_file (open_file (prepared_by k.entry.schedule.now k.entry.multiples.now) s.now) }
{
    if !legal_file(s) {
        return None;
    }
    let version = little::u64_in(&s[4..]);
    let seal = little::u64_in(&s[12..]);
    let mut text = [0u8; TABLE_LEN];
    if !frame::unframe(k, nonce_of(FILE_KIND, 0, seal), s, &mut text) {
        return None;
    }
    let Some(table) = table::table_in(&text) else {
        return None;
    };
    Some(FileRead {
        version,
        seal,
        table,
    })
}

// Seals a table as a checkpoint file at the start of out. It refuses an output with no room; out is then as it came.
pub fn seal_file(
    k: KeyRef<'_>,
    version: u64,
    seal: u64,
    t: Table,
    out: &mut [u8],
) -> Result<usize, Short>
    ensures answer { result ≡ file_answer (length out.old) }
    ensures buffer { out.new ≡ put_over (file_put (file_answer (length out.old)) (file_bytes (prepared_by k.entry.schedule.now k.entry.multiples.now) version seal t)) out.old }
{
    if out.len() < FILE_LEN {
        return Err(Short { needed: FILE_LEN });
    }
    table::put_text(t, &mut out[HEAD_LEN..HEAD_LEN + TABLE_LEN]);
    frame::put_framed(
        k,
        nonce_of(FILE_KIND, 0, seal),
        head_of(version, seal),
        TABLE_LEN,
        out,
    );
    Ok(FILE_LEN)
}
