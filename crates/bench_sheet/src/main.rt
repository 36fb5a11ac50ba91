// 01's and 02's cases, run on the compiled code: for each operation, for a reading off the wired bus, and for each number that
// it can return a case just inside and one just outside, and the marked cases of the bench sheet (M). The cases are a script,
// the file `stdin` of this crate, which says at its head what each word of it does; here is what carries it out. A line a case
// is written, and one for a word that is none of the script's.
#![tactic(auto)]

mod bench;
mod buffer;
mod frame;
mod made;
mod script;
mod words;
mod write;

use bench::{Bench, ROOM};
use script::Command;
use std::io::{self, Read};

// At most so many bytes of a script are read. Zeros stand behind a shorter one.
const SCRIPT: usize = 65536;

// How many commands a script may have.
const COMMANDS: usize = 4096;

// The room of a transaction and of a log.
const TEXT: usize = 512;

const LOG: usize = 262145;

fn main(rt: HostRuntime) -> io::Result<()> {
    let mut script = [0u8; SCRIPT];
    io::copy(&mut rt.reader().take(SCRIPT as u64), &mut &mut script[..])?;
    let mut text = [0u8; TEXT];
    let mut file = [0u8; ROOM];
    let mut log = [0u8; LOG];
    let mut bench = Bench::new(&mut text, &mut file, &mut log);
    let mut rest: &[u8] = &script;
    for _ in 0..COMMANDS {
        let (command, behind) = Command::first(rest);
        match command {
            Some(m) => bench.step(&rt, m),
            None => println!(&rt; "a word that is none of the script's"),
        }?;
        rest = behind;
    }
    Ok(())
}
