// What a call of the script answered, as it is written: the store that it named and the bytes that it put out, or the number on
// the display and the value beside it.
use bus::BusError;
use protocol::{Outcome, Refusal, Store, Taken};
use std::{fmt, io};
use transaction::STAMP_LEN;

// A line: a name, which is bytes of the script and need not be text, and what is shown.
pub fn line<D: fmt::Display + Drop>(rt: &impl Print, name: &[u8], shown: D) -> io::Result<()> {
    rt.write_all(name)?;
    println!(rt; ": {shown}")
}

// A byte in hexadecimal.
#[derive(Clone, Copy)]
pub struct Coded(pub u8);

impl fmt::Display for Coded {
    fn fmt<W: fmt::Write>(&self, f: &mut fmt::Formatter<W>) -> fmt::Result {
        write!(f, "{:02x}", self.0)
    }
}

// A store that a call names.
#[derive(Clone, Copy)]
struct Named(Store);

impl fmt::Display for Named {
    fn fmt<W: fmt::Write>(&self, f: &mut fmt::Formatter<W>) -> fmt::Result {
        match self.0 {
            Store::Nothing => write!(f, "no store"),
            Store::W { lane, value } => write!(f, "W of lane {lane} is {value}"),
            Store::V { lane, value } => write!(f, "V of lane {lane} is {value}"),
            Store::R { lane, value } => write!(f, "R of lane {lane} is {value}"),
            Store::E { value } => write!(f, "E is {value}"),
            Store::S { value } => write!(f, "S is {value}"),
            Store::N { value } => write!(f, "N is {value}"),
            Store::Record { position } => write!(f, "record at {position}"),
            Store::File => write!(f, "checkpoint"),
            Store::Delete { position } => write!(f, "delete below {position}"),
            Store::Empty => write!(f, "empty the log"),
        }
    }
}

// What an operation answered.
#[derive(Clone, Copy)]
pub struct Answer(pub Outcome);

impl fmt::Display for Answer {
    fn fmt<W: fmt::Write>(&self, f: &mut fmt::Formatter<W>) -> fmt::Result {
        match self.0 {
            Ok(Taken { store, len: 0 }) => write!(f, "taken, {}", Named(store)),
            Ok(Taken { store, len }) => write!(f, "taken, {}, {len} bytes", Named(store)),
            Err(
                why @ (Refusal::Length { .. }
                | Refusal::Closed { .. }
                | Refusal::Epoch { .. }
                | Refusal::Turn { .. }
                | Refusal::Missing { .. }),
            ) => write!(f, "{}, {}", why.number(), why.value()),
            Err(why) => write!(f, "{}", why.number()),
        }
    }
}

// What came of a frame: the transaction of one write at the start of out, in its layout's order, or why there is none; and
// whether all that was not put out is as it was.
#[derive(Clone, Copy)]
pub struct Reading<'a> {
    pub heard: Result<(), BusError>,
    pub out: &'a [u8],
    pub kept: bool,
}

impl fmt::Display for Reading<'_> {
    fn fmt<W: fmt::Write>(&self, f: &mut fmt::Formatter<W>) -> fmt::Result {
        match self.heard {
            Ok(()) => {
                let stamp = transaction::stamp_of(self.out);
                let w = transaction::write_in(self.out.get(STAMP_LEN..).unwrap_or(b""));
                let (meter, code, spare, reading) = (w.meter, w.code, w.spare, w.reading);
                write!(
                    f,
                    "taken, stamp {stamp}, meter {meter}, code {code}, {spare}, reading {reading}"
                )
            }
            Err(why @ BusError::Short(_)) => write!(f, "{}, {}", why.number(), why.value()),
            Err(why) => write!(f, "{}", why.number()),
        }?;
        let rest = if self.kept { "kept" } else { "changed" };
        write!(f, ", the rest {rest}")
    }
}
