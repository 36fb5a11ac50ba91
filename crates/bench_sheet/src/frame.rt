// A frame of the wired bus: hexadecimal 68 L L 68, then L bytes, their sum, and 16. It stands in the log's place.
use super::buffer::Buffer;

// 68 L L 68, C, address, CI, and the fixed header, whose byte at place 14 is the medium.
const HEAD: [u8; 19] =
    *b"\x68\x00\x00\x68\x08\x05\x72\x78\x56\x34\x12\x24\x40\x01\x00\x55\x00\x00\x00";

const MEDIUM_PLACE: usize = 14;

// The most filler that a command puts in.
const MOST_FILLER: usize = 512;

impl Buffer<'_> {
    // A place so many bytes before its end. Where it is shorter than that, there is none: the number is past every place.
    fn from_end(&self, n: usize) -> usize {
        self.len.wrapping_sub(n)
    }

    // The sum of the frame put right.
    pub fn add_up(&mut self) {
        let end = self.from_end(2);
        let sum = self
            .part(4, end)
            .iter()
            .fold(0u8, |sum, b| sum.wrapping_add(*b));
        self.set(end, sum);
    }

    // Both L, the sum and the stop byte put right.
    fn close(&mut self) {
        let l = (self.from_end(6) % 256) as u8;
        self.put(1, &[l, l]);
        self.add_up();
        self.set(self.from_end(1), 0x16);
    }

    // These bytes, and nothing else.
    pub fn hold(&mut self, given: &[u8], n: usize) {
        self.put(0, given);
        self.len = n;
    }

    // A frame of a medium, the first byte given, and records.
    pub fn reply(&mut self, given: &[u8], n: usize) {
        let (medium, records) = given.split_first().unwrap_or((&0, given));
        self.put(0, &HEAD);
        self.set(MEDIUM_PLACE, *medium);
        self.put(HEAD.len(), records);
        self.len = n.wrapping_add(HEAD.len() + 1);
        self.close();
    }

    // Records behind those that it has.
    pub fn more(&mut self, records: &[u8], n: usize) {
        self.put(self.from_end(2), records);
        self.grow(n);
        self.close();
    }

    // So many bytes of filler behind them.
    pub fn filler(&mut self, n: usize) {
        self.fill(self.from_end(2), n.min(MOST_FILLER), 0x2f);
        self.grow(n);
        self.close();
    }

    // Its bytes from a place on, the first byte given.
    pub fn change(&mut self, given: &[u8]) {
        if let Some((place, bytes)) = given.split_first() {
            self.put(*place as usize, bytes);
        }
    }

    // So many bytes less.
    pub fn cut(&mut self, n: usize) {
        self.len = self.from_end(n);
    }
}
