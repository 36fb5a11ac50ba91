// Readings off the wired bus (02, CR 1): an M-Bus reply of EN 13757 becomes a transaction of one write.
//
// A reply is a long frame around L bytes: C, address, CI, a fixed header of 12 bytes, and records. The frame is checked
// first, whole; then the records are searched for the one that is taken, a step a record, and never behind the L bytes.
// Nothing public has a `requires`.
#![tactic(auto)]

ghost use Rattle.std.specs.Prelude.{◌≡◌, ◌%◌, ◌≤◌, IfSome, length};
ghost use Rattle.octets.specs.Lists.{at, put_over};
ghost use Rattle.bus.specs.Frame.{sum, reply_c, unbroken};
ghost use Rattle.bus.specs.Medium.{code_of, listed, unit_of};
ghost use Rattle.bus.specs.Digits.{pair_of, reading_of};
ghost use Rattle.bus.specs.Records.{data_len, field_len, unusable_vif, look, first_reading};
ghost use Rattle.bus.specs.Answer.{number_of, values_of, said_by, from_bus};

use octets::byte_at;
use transaction::{METERS, MIN_TEXT, Write};

// The first and fourth byte of a frame, and its last.
const START: u8 = 0x68;

const STOP: u8 = 0x16;
// 68 L L 68, and the sum with the stop byte.
const OPEN_LEN: usize = 4;

const CLOSE_LEN: usize = 2;
// C, address, CI, and the fixed header.
const FIELDS_LEN: usize = 3;

const HEADER_LEN: usize = 12;
// The least L.
const LEAST_L: usize = FIELDS_LEN + HEADER_LEN;
// Where C, CI and the medium, the header's eighth byte, stand in a frame, and where the records begin.
const C_PLACE: usize = OPEN_LEN;

const CI_PLACE: usize = OPEN_LEN + 2;

const MEDIUM_PLACE: usize = OPEN_LEN + FIELDS_LEN + 7;

const RECORDS_PLACE: usize = OPEN_LEN + LEAST_L;
// CI of a reply with the fixed header.
const REPLY_CI: u8 = 0x72;
// A byte of filler, in a DIF's place.
const FILLER: u8 = 0x2f;
// The DIF that is taken: eight BCD digits. They begin behind DIF and VIF.
const WANTED_DIF: u8 = 0x0c;

const DATA_PLACE: usize = 2;
// The VIF of litres, and of kWh.
const LITRES: u8 = 0x13;

const KILOWATT_HOURS: u8 = 0x06;

// What the search meets: so many bytes to pass, the record that is taken, or its end.
#[derive(Clone, Copy, Debug, PartialEq, Eq)]
enum Met {
    Pass(usize),
    Take,
    End,
}

// Why there is no transaction.
#[derive(Clone, Copy, Debug, PartialEq, Eq)]
pub enum BusError {
    // The output needs so many bytes.
    Short(usize),
    // There is no such meter.
    Meter,
    // The frame is broken.
    Broken,
    // It has no usable record.
    Unusable,
}

// The number and the value on the display (02, CR 1).
impl BusError {
    // The number.
    #[tactic(auto, unfolding(crate::specs::Answer::number_of))]
    pub fn number(self) -> u8
        ensures { result ≡ number_of self }
    {
        match self {
            BusError::Short(_) => 3,
            BusError::Meter => 4,
            BusError::Broken => 16,
            BusError::Unusable => 17,
        }
    }

    // The value returned with it, or 0 where there is none.
    #[tactic(auto, unfolding(crate::specs::Answer::values_of))]
    pub fn value(self) -> u64
        ensures { result ≡ at (values_of self) 0 }
    {
        match self {
            BusError::Short(right) => right as u64,
            BusError::Meter | BusError::Broken | BusError::Unusable => 0,
        }
    }
}

// The sum of all bytes, modulo 256.
fn sum_of(s: &[u8]) -> u8
    ensures { result ≡ sum s.now % 256 }
{
    s.iter().fold(0, |total: u8, b| total.wrapping_add(*b))
}

// Whether a C is a reply's.
#[tactic(auto, unfolding(crate::specs::Frame::reply_c))]
fn replies(c: u8) -> bool
    ensures { result ≡ reply_c c }
{
    matches!(c, 0x08 | 0x18 | 0x28 | 0x38)
}

// Whether the bytes are an unbroken frame around a reply.
#[tactic(auto, using(crate::proofs::FrameLaws::unbroken_is, crate::proofs::FrameLaws::unbroken_long, crate::proofs::FrameLaws::unbroken_short, crate::proofs::FrameLaws::bytes_part))]
fn unbroken(f: &[u8]) -> bool
    ensures { result ≡ unbroken f.now }
{
    let n = f.len();
    if n < OPEN_LEN + LEAST_L + CLOSE_LEN {
        return false;
    }
    let len = f[1] as usize;
    if n != OPEN_LEN + len + CLOSE_LEN {
        return false;
    }
    let end = OPEN_LEN + len;
    let sum = sum_of(&f[OPEN_LEN..end]);
    let last = end + 1;
    let reply = replies(f[C_PLACE]);
    (f[0] == START)
        & (f[2] == f[1])
        & (f[3] == START)
        & (f[end] == sum)
        & (f[last] == STOP)
        & reply
        & (f[CI_PLACE] == REPLY_CI)
}

// The code of a medium, where it is listed.
#[tactic(auto, unfolding(crate::specs::Medium::code_of, crate::specs::Medium::listed))]
fn code_of(medium: u8) -> Option<u8>
    ensures { result ≡ listed (code_of medium) }
{
    match medium {
        0x07 | 0x16 => Some(1),
        0x06 | 0x15 => Some(2),
        0x04 | 0x0c => Some(3),
        0x0a | 0x0b => Some(4),
        0x00..=0x03 | 0x05 | 0x08..=0x09 | 0x0d..=0x14 | 0x17..=0xff => None,
    }
}

// The VIF of a code's unit.
#[tactic(auto, unfolding(crate::specs::Medium::unit_of))]
fn unit_of(code: u8) -> u8
    ensures { result ≡ unit_of code }
{
    if code <= 2 { LITRES } else { KILOWATT_HOURS }
}

// The length of the data, by the DIF's low four bits; none where they make the DIF unusable.
#[tactic(auto, using(crate::proofs::MediumLaws::len_at))]
fn data_len(dif: u8) -> Option<usize>
    ensures { result ≡ data_len dif }
{
    match dif % 16 {
        0x0 | 0x8 => Some(0),
        0x1 | 0x9 => Some(1),
        0x2 | 0xa => Some(2),
        0x3 | 0xb => Some(3),
        0x4 | 0x5 | 0xc => Some(4),
        0x6 | 0xe => Some(6),
        0x7 => Some(8),
        0xd | 0xf..=0xff => None,
    }
}

// The length of a DIF or VIF with its extension bytes, one more while the last one has its top bit set.
fn field_len(s: &[u8]) -> usize
    ensures { result ≡ field_len s.now }
{
    let last = s.iter().position(|b| *b < 0x80);
    last.unwrap_or(s.len()) + 1
}

// Whether the search ends at this VIF.
#[tactic(auto, unfolding(crate::specs::Records::unusable_vif))]
fn unusable(vif: u8) -> bool
    ensures { result ≡ unusable_vif vif }
{
    matches!(vif, 0x7c | 0xfc)
}

// What the search for a record in this unit meets at the start of s.
#[tactic(auto, using(crate::proofs::LookLaws::get_past, crate::proofs::FieldLaws::field_bound, crate::proofs::FieldLaws::field_some, crate::proofs::MediumLaws::len_small), unfolding(crate::specs::Records::look, crate::specs::Records::look_record, crate::specs::Records::record_len, crate::specs::Records::wanted))]
fn look(s: &[u8], unit: u8) -> Met
    ensures { result ≡ look unit s.now }
{
    let Some(&dif) = s.first() else {
        return Met::End;
    };
    if dif == FILLER {
        return Met::Pass(1);
    }
    let Some(data) = data_len(dif) else {
        return Met::End;
    };
    let d = field_len(s);
    let Some(&vif) = s.get(d) else {
        return Met::End;
    };
    if unusable(vif) {
        return Met::End;
    }
    let v = field_len(&s[d..]);
    let whole = d + v + data;
    if s.len() < whole {
        return Met::End;
    }
    if (dif == WANTED_DIF) & (vif == unit) {
        return Met::Take;
    }
    Met::Pass(whole)
}

// The number that the two digits of a byte write, or none where one of them is above 9.
#[tactic(auto, unfolding(crate::specs::Digits::pair_of))]
fn two_digits(b: u8) -> Option<u32>
    ensures value { result ≡ pair_of b }
    ensures small { IfSome result (λ n. n ≤ 99) }
{
    let low = b % 16;
    let high = b / 16;
    if 9 < low || 9 < high {
        return None;
    }
    Some(low as u32 + high as u32 * 10)
}

// The reading that the eight digits at the start of s write, or none.
#[tactic(auto, using(crate::proofs::DigitLaws::reading_first, crate::proofs::DigitLaws::reading_second, crate::proofs::DigitLaws::reading_third, crate::proofs::DigitLaws::reading_seventh, crate::proofs::DigitLaws::reading_plain, crate::proofs::DigitLaws::reading_minus, crate::proofs::DigitLaws::reading_none, crate::proofs::DigitLaws::minus_fits))]
fn reading_of(s: &[u8]) -> Option<i32>
    ensures { result ≡ reading_of s.now }
{
    let first = two_digits(byte_at(s, 0))?;
    let second = two_digits(byte_at(s, 1))?;
    let third = two_digits(byte_at(s, 2))?;
    let last = byte_at(s, 3);
    let seventh = last % 16;
    if 9 < seventh {
        return None;
    }
    let seven = first + second * 100 + third * 10_000 + seventh as u32 * 1_000_000;
    let top = last / 16;
    match top {
        0..=9 => Some((seven + top as u32 * 10_000_000) as i32),
        0xf => Some(0 - seven as i32),
        0xa..=0xe | 0x10..=0xff => None,
    }
}

// The reading of the first record in this unit, searched from the start of s to its end.
fn first_reading(s: &[u8], unit: u8) -> Option<i32>
    ensures { result ≡ first_reading unit s.now }
{
    let mut rest = s;
    loop {
        match look(rest, unit) {
            Met::Pass(n) => {
                rest = &rest[n..];
            }
            Met::Take => {
                return reading_of(&rest[DATA_PLACE..]);
            }
            Met::End => {
                return None;
            }
        }
    }
}

// Puts the reading of an M-Bus reply at the start of out, as a transaction of one write to this meter with this stamp. It
// refuses, lowest number first, an output with no room for the 16 bytes, a meter that there is not, a broken frame, and one
// without a usable record; out is then as it came.
pub fn from_bus(frame: &[u8], meter: u16, stamp: u64, out: &mut [u8]) -> Result<(), BusError>
    ensures answer { said_by result ≡ (from_bus frame.now meter stamp (length out.old)).said }
    ensures bytes { out.new ≡ put_over (from_bus frame.now meter stamp (length out.old)).put out.old }
{
    if out.len() < MIN_TEXT {
        return Err(BusError::Short(MIN_TEXT));
    }
    if METERS <= meter as usize {
        return Err(BusError::Meter);
    }
    if !unbroken(frame) {
        return Err(BusError::Broken);
    }
    let Some(code) = code_of(frame[MEDIUM_PLACE]) else {
        return Err(BusError::Unusable);
    };
    let end = frame.len() - CLOSE_LEN;
    let Some(reading) = first_reading(&frame[RECORDS_PLACE..end], unit_of(code)) else {
        return Err(BusError::Unusable);
    };
    let w = Write {
        meter,
        code,
        spare: 0,
        reading,
    };
    let t = transaction::one_write(stamp, w);
    octets::copy(&t, out);
    Ok(())
}
