// A line of text, written from its end to its start, since a number's digits come lowest first. The library's `Display` would
// write it the other way round, but it may answer an error, of which it promises nothing: the text would not be known.
ghost use Rattle.std.specs.Prelude.{◌≡◌, List, ℕ, [], ◌∷◌, ◌++◌, ◌+◌, ◌≤◌, ◌<◌, length, drop};
ghost use Rattle.heat.specs.Numerals.{numeral, signed_numeral};
ghost use Rattle.heat.specs.Text.{line_max};

use super::LINE_MAX;
use std::marker::Model;

// The byte of the digit 0, and of a minus.
const ZERO: u8 = b'0';

const MINUS: u8 = b'-';

// What is written so far stands from `from` to the end of `bytes`, and contracts see that alone.
#[derive(Drop)]
pub(crate) struct Line {
    bytes: [u8; LINE_MAX],
    from: usize,
}

impl Model for Line {
    ghost Value = { List ℕ };

    ghost view = { λ l. drop l.from l.bytes };

    ghost invariant = { λ l. l.from ≤ line_max };
}

impl Line {
    // Nothing is written.
    pub(crate) fn new() -> Line
        ensures { result ≡ [] }
    {
        Line {
            bytes: [0; LINE_MAX],
            from: LINE_MAX,
        }
    }

    // What is written.
    pub(crate) fn as_slice(&self) -> &[u8]
        ensures { result.now ≡ self.now }
    {
        &self.bytes[self.from..]
    }

    // A byte before it.
    pub(crate) fn byte_before(&mut self, b: u8)
        requires { length self.old < line_max }
        ensures { self.new ≡ b ∷ self.old }
    {
        self.from -= 1;
        self.bytes[self.from] = b;
    }

    // Bytes before it.
    pub(crate) fn bytes_before(&mut self, s: &[u8])
        requires { length s.now + length self.old ≤ line_max }
        ensures { self.new ≡ s.now ++ self.old }
    {
        self.from -= s.len();
        octets::copy(s, &mut self.bytes[self.from..]);
    }

    // A number in decimal before it.
    pub(crate) fn digits_before(&mut self, n: u64)
        requires { length (numeral n) + length self.old ≤ line_max }
        ensures { self.new ≡ numeral n ++ self.old }
    {
        let mut left = n;
        while 10 <= left {
            self.byte_before(ZERO + (left % 10) as u8);
            left /= 10;
        }
        self.byte_before(ZERO + left as u8);
    }

    // A signed number in decimal before it.
    pub(crate) fn signed_before(&mut self, z: i64)
        requires { length (signed_numeral z) + length self.old ≤ line_max }
        ensures { self.new ≡ signed_numeral z ++ self.old }
    {
        self.digits_before(z.unsigned_abs());
        if z < 0 {
            self.byte_before(MINUS);
        }
    }
}
