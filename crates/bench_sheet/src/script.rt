// A command of the script: a word, up to three numbers or bytes in hexadecimal, and behind a colon and to the end of the line
// the name that stands before what it shows. A semicolon ends a command that has no name:
//
//     new; serving; accept 0 10: accept, one in service
//     reply 07 0C 13 78 56 34 12; from-bus 16 7 100: from-bus, a water meter
//
// What begins with # is passed over, to the end of its line. A number that is not there is 0. A script is bytes, of which each
// part of a command takes those of its kind: what is of no kind is not refused, it ends a part.
use super::words::Word;
use arrayvec::ArrayVec;

// How many of a command's bytes are read.
const MOST_BYTES: usize = 256;

#[derive(Clone, Copy)]
pub struct Command<'a> {
    pub word: Word,
    // The numbers.
    pub a: u64,
    pub b: u64,
    pub c: u64,
    // What they or the bytes are written in.
    given: &'a [u8],
    // What stands before what it shows.
    pub name: &'a [u8],
}

// ---- the kinds of bytes

fn letter(b: u8) -> bool {
    b.is_ascii_alphabetic() || b == b'-'
}

fn digit(b: u8) -> bool {
    b.is_ascii_digit()
}

fn blank(b: u8) -> bool {
    b == b' '
}

// The bytes of a kind at the start of a text, and what is behind them.
fn run<F: Fn(u8) -> bool>(text: &[u8], kind: F) -> (&[u8], &[u8])
    requires { F.IsAlwaysCallable kind }
{
    let n = text.iter().position(|b| !kind(*b)).unwrap_or(text.len());
    text.split_at_checked(n).unwrap_or((text, b""))
}

// ---- numbers

// A number with one digit more. One that has 19 digits has no more of them.
fn longer(n: u64, digit: u8) -> u64 {
    if 1_000_000_000_000_000_000 <= n {
        n
    } else {
        n * 10 + (digit % 16) as u64
    }
}

// The number at the start of a text, or behind blanks there, and what is behind it.
fn number(text: &[u8]) -> (u64, &[u8]) {
    let (_, text) = run(text, blank);
    let (digits, rest) = run(text, digit);
    (digits.iter().fold(0, |n, d| longer(n, *d)), rest)
}

// A digit in hexadecimal.
fn half(digit: u8) -> u8 {
    if digit < b'A' {
        digit % 16
    } else {
        digit.wrapping_add(9) % 16
    }
}

// Where a command has its name, that and what is behind it: a semicolon stands before the next command.
fn name(text: &[u8]) -> (&[u8], &[u8]) {
    if text.starts_with(b";") {
        return (b"", text);
    }
    let (_, text) = run(text, |b| b == b':');
    let (_, text) = run(text, blank);
    run(text, |b| b != b'\n')
}

impl<'a> Command<'a> {
    // The command at the start of a script, if its word is one of the script's, and what is behind it and the byte that ends it.
    pub fn first(script: &'a [u8]) -> (Option<Command<'a>>, &'a [u8]) {
        let (_, text) = run(script, blank);
        let (word, text) = run(text, letter);
        let (_, text) = run(text, blank);
        let (a, behind) = number(text);
        let (b, behind) = number(behind);
        let (c, _) = number(behind);
        let (given, text) = run(text, |b| letter(b) || digit(b) || blank(b));
        let (name, text) = name(text);
        let command = Word::named(word).map(|word| Command {
            word,
            a,
            b,
            c,
            given,
            name,
        });
        (command, text.get(1..).unwrap_or(b""))
    }

    // Its first number as a place or a length.
    pub fn size(self) -> usize {
        self.a as usize
    }

    // Its first number as a lane, a meter or a byte.
    pub fn byte(self) -> u8 {
        (self.a % 256) as u8
    }

    // How many bytes it gives: two digits each and a blank between them.
    pub fn count(self) -> usize {
        (self.given.len() + 1) / 3
    }

    // Those bytes, as many of them as are read.
    pub fn bytes(self) -> ArrayVec<u8, MOST_BYTES> {
        let mut bytes = ArrayVec::new();
        for digits in self.given.chunks(3) {
            if let [high, low, ..] = digits {
                let _ = bytes.try_push(half(*high) << 4 | half(*low));
            }
        }
        bytes
    }
}
