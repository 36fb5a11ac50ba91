// NIST's test vectors for AES-128 and AES-128-GCM, run: the known answers of AESAVS, and those groups of the CAVP files
// for GCM that have a 96-bit IV and a 128-bit tag. A line of a file is a vector, and one that starts with # a comment.
//
// For each file one line is written, with the number of vectors that agree in every byte and the number of vectors. A
// vector that is not well formed does not agree. One that NIST has fail agrees where opening fails and leaves the lent
// buffer as it was.
#![tactic(auto)]

mod text;

ghost use Rattle.std.specs.Prelude.{◌≤◌};
ghost use Rattle.vectors.specs.Tally.{Single};

use gcm::{OpenError, TAG_LEN};
use std::fs::File;
use std::io::Read;
use std::rt::Files;
use std::{fmt, io};
use text::{MOST, array, bytes, field};

// How a vector does: it agrees, it agrees where NIST has the decryption fail, or it does not agree.
#[derive(Clone, Copy, PartialEq, Eq)]
enum Verdict {
    Agrees,
    Refused,
    Differs,
}

impl From<bool> for Verdict {
    fn from(agrees: bool) -> Verdict {
        if agrees {
            Verdict::Agrees
        } else {
            Verdict::Differs
        }
    }
}

// How many vectors there are, how many agree, and how many of those are refused.
#[derive(Clone, Copy, Default)]
struct Tally {
    lines: u64,
    agreed: u64,
    refused: u64,
}

impl Tally {
    // One vector more.
    fn add(&mut self, verdict: Verdict)
        ensures { Single self.old self.new }
    {
        self.lines = self.lines.saturating_add(1);
        if verdict != Verdict::Differs {
            self.agreed = self.agreed.saturating_add(1);
        }
        if verdict == Verdict::Refused {
            self.refused = self.refused.saturating_add(1);
        }
    }
}

impl fmt::Display for Tally {
    fn fmt<W: fmt::Write>(&self, f: &mut fmt::Formatter<W>) -> fmt::Result {
        write!(f, "{} of {}", self.agreed, self.lines)
    }
}

// What stands in a lent buffer that a decryption is to leave as it was, but for the text.
const BEFORE: u8 = 0xa5;

// The longest text and its tag.
const SEALED: usize = MOST + TAG_LEN;

// a, with b behind it, at the start of as many zeros as hold the longest text and its tag.
fn joined(a: &[u8], b: &[u8]) -> [u8; SEALED] {
    let mut joined = [0u8; SEALED];
    for (place, byte) in joined.iter_mut().zip(a.iter().chain(b)) {
        *place = *byte;
    }
    joined
}

// A line of the AES set: set key plaintext ciphertext.
fn enciphers(line: &[u8]) -> Option<Verdict> {
    let key: [u8; 16] = array(field(line, 1))?;
    let plain: [u8; 16] = array(field(line, 2))?;
    let want: [u8; 16] = array(field(line, 3))?;
    let w = aes_key::key_expansion(key);
    let got = octets::block_bytes(aes::encrypt(&w, octets::first_block(&plain)));
    Some(Verdict::from(got == want))
}

// A line of the encryptions: key iv plaintext aad ciphertext tag. The text is encrypted in place, and the tag put behind it.
fn seals(line: &[u8]) -> Option<Verdict> {
    let key: [u8; 16] = array(field(line, 0))?;
    let iv: [u8; 12] = array(field(line, 1))?;
    let plain = bytes(field(line, 2))?;
    let aad = bytes(field(line, 3))?;
    let want = bytes(field(line, 4))?;
    let tag: [u8; 16] = array(field(line, 5))?;
    let n = plain.len();
    let mut buf = joined(plain.as_slice(), b"");
    let done = gcm::prepare(key)
        .seal(iv, aad.as_slice(), &mut buf, n)
        .is_ok();
    let all = joined(want.as_slice(), &tag);
    Some(Verdict::from(done && want.len() == n && buf == all))
}

// Whether what was lent starts with these bytes, and what stands behind them is as it was.
fn holds(lent: &[u8], text: &[u8]) -> bool {
    match lent.strip_prefix(text) {
        Some(rest) => rest.iter().all(|b| *b == BEFORE),
        None => false,
    }
}

// A line of the decryptions: key iv ciphertext aad tag plaintext, or FAIL for the plaintext.
fn opens(line: &[u8]) -> Option<Verdict> {
    let key: [u8; 16] = array(field(line, 0))?;
    let iv: [u8; 12] = array(field(line, 1))?;
    let cipher = bytes(field(line, 2))?;
    let aad = bytes(field(line, 3))?;
    let tag: [u8; 16] = array(field(line, 4))?;
    let all = joined(cipher.as_slice(), &tag);
    let sealed = all.get(..cipher.len() + TAG_LEN)?;
    let mut out = [BEFORE; MOST];
    let answer = gcm::prepare(key).open(iv, aad.as_slice(), sealed, &mut out);
    let wanted = field(line, 5);
    if matches!(wanted, b"FAIL") {
        let fails = answer == Err(OpenError::Fail) && holds(&out, b"");
        return Some(if fails {
            Verdict::Refused
        } else {
            Verdict::Differs
        });
    }
    let want = bytes(wanted)?;
    let opened = answer == Ok(want.len());
    Some(Verdict::from(opened && holds(&out, want.as_slice())))
}

// The tally of a file's text, line by line, each by the test of its set. A line that is not well formed does not agree.
fn counted<F: Fn(&[u8]) -> Option<Verdict>>(s: &[u8], test: F) -> Tally
    requires { F.IsAlwaysCallable test }
{
    let mut tally = Tally::default();
    for line in s.split_inclusive(|b| *b == b'\n') {
        let line = line.strip_suffix(b"\n").unwrap_or(line);
        if line.starts_with(b"#") {
            continue;
        }
        tally.add(test(line).unwrap_or(Verdict::Differs));
    }
    tally
}

// The most bytes of a file that are read.
const FILE: usize = 65536;

// The tally of a file, of its first 65536 bytes. Where it cannot be opened, standard error says why, and it has no lines.
// Not inlined: main would hold the bytes of two files at a time.
#[inline(never)]
fn run<R: Files + Eprint, F: Fn(&[u8]) -> Option<Verdict>>(
    rt: &R,
    path: &str,
    test: F,
) -> io::Result<Tally>
    requires { F.IsAlwaysCallable test }
{
    let mut text = [0u8; FILE];
    let n = match File::open(rt, path) {
        Ok(file) => io::copy(&mut file.take(FILE as u64), &mut &mut text[..])?,
        Err(e) => {
            eprintln!(rt; "{path}: {e}")?;
            0
        }
    };
    Ok(counted(text.get(..n as usize).unwrap_or(&text), test))
}

fn main(rt: HostRuntime) -> io::Result<()> {
    let aes = run(&rt, "aes-128-ecb.txt", enciphers)?;
    print!(rt; "AES known answers: {aes}")?;
    let encrypt = run(&rt, "gcm-encrypt-128.txt", seals)?;
    print!(rt; "\nGCM encryptions: {encrypt}")?;
    let decrypt = run(&rt, "gcm-decrypt-128.txt", opens)?;
    println!(rt; "\nGCM decryptions: {decrypt}, {} refused", decrypt.refused)
}
