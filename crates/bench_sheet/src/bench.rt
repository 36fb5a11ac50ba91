// The bench: what a command of the script finds, and what each word does with it.
use super::buffer::{Buffer, first};
use super::made;
use super::script::Command;
use super::words::Word;
use super::write::{self, Answer, Coded, Reading};
use collector::{Collector, Handed};
use protocol::{State, Store, Vault};
use sealed::record::RECORD_KIND;
use std::io;
use transaction::MIN_TEXT;

// What stands in the room that is lent to a call, before it.
const BEFORE: u8 = 165;

// That room, and the one of a checkpoint file: a byte more than a file has.
pub const ROOM: usize = 6185;

// Vault numbers, a collector, one that was put aside, what calls are handed, and the room that the last of them was lent.
#[derive(Drop)]
pub struct Bench<'a> {
    numbers: Vault,
    collector: Collector,
    kept: Collector,
    text: Buffer<'a>,
    file: Buffer<'a>,
    log: Buffer<'a>,
    out: [u8; ROOM],
}

// A call that is lent room for so many bytes, each 165 before.
fn lent<T, F: FnOnce(&mut [u8]) -> T>(out: &mut [u8], room: usize, call: F) -> T
    requires { F.IsAlwaysCallable call }
{
    out.fill(BEFORE);
    let n = room.min(out.len());
    call(&mut out[..n])
}

impl<'a> Bench<'a> {
    pub fn new(text: &'a mut [u8], file: &'a mut [u8], log: &'a mut [u8]) -> Bench<'a> {
        let numbers = vault::new_vault();
        let collector = made::cold(numbers);
        Bench {
            numbers,
            collector,
            kept: collector,
            text: Buffer::new(text),
            file: Buffer::new(file),
            log: Buffer::new(log),
            out: [0u8; ROOM],
        }
    }

    // A command carried out.
    pub fn step(&mut self, rt: &impl Print, m: Command<'_>) -> io::Result<()> {
        let name = m.name;
        let size = m.size();
        let (lane, value) = (m.byte(), m.b);
        let count = m.count();
        let c = self.collector;
        match m.word {
            Word::Nothing => {}
            // The vault's numbers: new ones, or a store done.
            Word::New => self.numbers = vault::new_vault(),
            Word::SetW => self.store(Store::W { lane, value }),
            Word::SetV => self.store(Store::V { lane, value }),
            Word::SetR => self.store(Store::R { lane, value }),
            Word::SetE => self.store(Store::E { value: m.a }),
            Word::SetS => self.store(Store::S { value: m.a }),
            Word::SetN => self.store(Store::N { value: m.a }),
            // The collector.
            Word::Cold => self.collector = made::cold(self.numbers),
            Word::Serving => self.collector = made::serving(self.numbers),
            Word::Listed => self.change(|state| state.journal.count = size),
            Word::Points => self.change(|state| state.points.count = size),
            Word::Newest => self.change(|state| {
                state.points.any = true;
                state.points.newest = m.a;
            }),
            Word::Keep => self.kept = c,
            Word::Again => self.collector = self.kept,
            // The transaction, the file and the log that calls are handed.
            Word::Writes => self.writes(m.a),
            Word::TextByte => self.text.set(size, (m.b % 256) as u8),
            Word::TextLength => self.text.len = size,
            Word::File => {
                self.file.put(0, &self.out);
                self.file.len = size;
            }
            Word::FileTurn => self.file.turn(size),
            Word::FileLength => self.file.len = size,
            Word::Log => self.log.clear(size),
            Word::LogAdd => self.log.add(first(&self.out, size), size),
            Word::Record => self.record(m.a, m.b),
            Word::LogTurn => self.log.turn(size),
            Word::LogLength => self.log.len = size,
            // The frame, in the log's place. It grows by what the command says, also where that is more than is put in.
            Word::Frame => self.log.hold(m.bytes().as_slice(), count),
            Word::Reply => self.log.reply(m.bytes().as_slice(), count),
            Word::More => self.log.more(m.bytes().as_slice(), count),
            Word::Filler => self.log.filler(size),
            Word::Set => self.log.change(m.bytes().as_slice()),
            Word::Sum => self.log.add_up(),
            Word::Add => self.log.add(m.bytes().as_slice(), count),
            Word::Cut => self.log.cut(size),
            // The calls.
            Word::Load => {
                let handed = Collector::load(self.numbers, first(b"sixteen of bytes.", size));
                self.answered(rt, name, handed)?;
            }
            Word::Accept => {
                let handed = c.accept(self.text.given(), lane, value);
                self.answered(rt, name, handed)?;
            }
            Word::Commit => {
                let handed = c.commit(self.log.given());
                self.answered(rt, name, handed)?;
            }
            Word::Point => self.answered(rt, name, c.point(m.a))?,
            Word::Truncate => self.answered(rt, name, c.truncate(m.a))?,
            Word::Seal => {
                let handed = lent(&mut self.out, size, |out| c.seal(out));
                self.answered(rt, name, handed)?;
            }
            Word::Checkpoint => {
                let handed = lent(&mut self.out, size, |out| c.checkpoint(out));
                self.answered(rt, name, handed)?;
            }
            Word::Recover => {
                let file = self.file.given();
                let log = self.log.given();
                let handed = lent(&mut self.out, size, |out| c.recover(file, log, out));
                self.answered(rt, name, handed)?;
            }
            Word::FromBus => self.from_bus(rt, m)?,
            // What is shown else.
            Word::Put => write::line(rt, name, self.out.get(size).copied().unwrap_or(0))?,
            Word::Number => write::line(rt, name, c.reading(lane).number)?,
            Word::Lane => write::line(rt, name, c.reading(lane).lane)?,
            Word::Counts => write::line(rt, name, self.counted(m.a))?,
            Word::Sbox => write::line(rt, name, Coded(aes_key::sbox_table()[lane as usize]))?,
            Word::Nonce => {
                rt.write_all(name)?;
                print!(rt; ":")?;
                for x in sealed::nonce_of(RECORD_KIND, lane, m.b) {
                    print!(rt; " {x}")?;
                }
                println!(rt; "")?;
            }
        }
        Ok(())
    }

    // A store done.
    fn store(&mut self, store: Store) {
        self.numbers = vault::after(self.numbers, store);
    }

    // The state of the collector changed.
    fn change<F: FnOnce(&mut State)>(&mut self, change: F)
        requires { F.IsAlwaysCallable change }
    {
        let mut state = self.collector.state();
        change(&mut state);
        self.collector = Collector::of(state);
    }

    // A transaction of stamp 100 and so many writes to meters 0 and up, each of code 1 and reading 7.
    fn writes(&mut self, k: u64) {
        self.text.put(0, &[100, 0, 0, 0, 0, 0, 0, 0]);
        for meter in 0..60u8 {
            self.text
                .put(8 + 8 * meter as usize, &[meter, 0, 1, 0, 7, 0, 0, 0]);
        }
        self.text.len = 8 + 8 * (k % 61) as usize;
    }

    // The record of the transaction, lane 0, of a number and an epoch, sealed by a collector of its own and added to the log.
    fn record(&mut self, number: u64, epoch: u64) {
        let w = Store::W {
            lane: 0,
            value: number.wrapping_sub(1),
        };
        let e = Store::E { value: epoch };
        let x = vault::after(vault::after(vault::new_vault(), w), e);
        let c = made::serving(x).accept(self.text.given(), 0, 0).collector;
        if let Some(room) = self.log.behind() {
            c.seal(room);
        }
        self.log.grow(self.text.len.wrapping_add(sealed::FRAME_LEN));
    }

    // What a call answered. Its collector is the one that the next call is handed.
    fn answered(&mut self, rt: &impl Print, name: &[u8], handed: Handed) -> io::Result<()> {
        self.collector = handed.collector;
        if name.is_empty() {
            return Ok(());
        }
        write::line(rt, name, Answer(handed.outcome))
    }

    // The reading in the frame, as a transaction, and whether all that was not put out is as it was.
    fn from_bus(&mut self, rt: &impl Print, m: Command<'_>) -> io::Result<()> {
        let name = m.name;
        let frame = self.log.given();
        let meter = (m.b % 65536) as u16;
        let heard = lent(
            &mut self.out,
            m.size(),
            |out| bus::from_bus(frame, meter, m.c, out),
        );
        if name.is_empty() {
            return Ok(());
        }
        let out = &self.out;
        let put = if heard.is_ok() { MIN_TEXT } else { 0 };
        let kept = out.iter().skip(put).all(|b| *b == BEFORE);
        write::line(rt, name, Reading { heard, out, kept })
    }

    // How many numbers of lane 0 a point counts; none where there is no such point.
    fn counted(&self, position: u64) -> u64 {
        let points = self.collector.state().points;
        match journal::points::find_point(points, position) {
            Some(point) => point.counts[0],
            None => 0,
        }
    }
}
