// The yearly heat split as a program (02, CR 5): two plain tables on standard input, the start's first, and on standard
// output the lines, or the one that says with which number the input is refused. What is printed is the library's to say:
// here it is read, called and written.
//
// Of a longer input one byte more than two tables is kept, which is enough to refuse it, and the rest is read and dropped, so
// that whoever writes it can write all of it.
#![tactic(auto)]

use arrayvec::ArrayVec;
use heat::TABLES_LEN;
use std::io;
use std::io::Read;

const KEPT: usize = TABLES_LEN + 1;

fn main(rt: HostRuntime) -> io::Result<()> {
    let mut from = rt.reader();
    let mut input = ArrayVec::<u8, KEPT>::new();
    io::copy(&mut from.by_ref().take(KEPT as u64), &mut input)?;
    io::copy(&mut from, &mut io::sink())?;
    let p = heat::print(input.as_slice());
    rt.write_all(&p.bytes[..p.len])
}
