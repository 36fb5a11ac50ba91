// What a call is handed: a transaction, a checkpoint file, a log, or a frame in the log's place. Each stands at the start of a
// room that never changes its size, and the script says how long it is: what stood behind it is there when it is longer again.
#[derive(Drop)]
pub struct Buffer<'a> {
    room: &'a mut [u8],
    pub len: usize,
}

// How many bytes of a log are cleared. No log but one of zeros is longer.
const CLEARED: usize = 1024;

// The first n bytes of a slice, or all of it where it has fewer.
pub fn first(s: &[u8], n: usize) -> &[u8] {
    s.get(..n).unwrap_or(s)
}

impl<'a> Buffer<'a> {
    pub fn new(room: &'a mut [u8]) -> Buffer<'a> {
        Buffer { room, len: 0 }
    }

    // What a call is handed.
    pub fn given(&self) -> &[u8] {
        first(self.room, self.len)
    }

    // A part of the room, or all of it where there is no such part.
    pub fn part(&self, from: usize, to: usize) -> &[u8] {
        self.room.get(from..to).unwrap_or(self.room)
    }

    // It is so many bytes longer.
    pub fn grow(&mut self, n: usize) {
        self.len = self.len.wrapping_add(n);
    }

    pub fn set(&mut self, i: usize, x: u8) {
        if let Some(b) = self.room.get_mut(i) {
            *b = x;
        }
    }

    // A bit of a byte turned over.
    pub fn turn(&mut self, i: usize) {
        if let Some(b) = self.room.get_mut(i) {
            *b ^= 1;
        }
    }

    // Bytes put in from a place on, as many as there is room for.
    pub fn put(&mut self, at: usize, s: &[u8]) {
        for (b, x) in self.room.iter_mut().skip(at).zip(s) {
            *b = *x;
        }
    }

    // So many times the same byte, from a place on.
    pub fn fill(&mut self, at: usize, n: usize, x: u8) {
        for b in self.room.iter_mut().skip(at).take(n) {
            *b = x;
        }
    }

    // Zeros, of which so many count.
    pub fn clear(&mut self, len: usize) {
        self.fill(0, CLEARED, 0);
        self.len = len;
    }

    // Bytes put in at its end, which makes it so many bytes longer.
    pub fn add(&mut self, s: &[u8], n: usize) {
        self.put(self.len, s);
        self.grow(n);
    }

    // The room behind its end.
    pub fn behind(&mut self) -> Option<&mut [u8]> {
        let from = self.len;
        let room = &mut *self.room;
        room.get_mut(from..)
    }
}
