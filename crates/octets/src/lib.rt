// Bytes in slices: blocks of 128 bits and numbers read and written, copies, comparison.
//
// Nothing here has a `requires`. Where a slice is too short, what is read past its end is 0 and what would be
// written past its end is left out; the contracts say so.
#![tactic(auto)]

ghost use Rattle.std.specs.Prelude.{◌≡◌};
ghost use Rattle.std.specs.Int.Bits.{bit_xor};
ghost use Rattle.octets.specs.Lists.{at, over};
ghost use Rattle.octets.specs.Bytes.{number, bytes_of, padded, same_bytes};
ghost use Rattle.octets.specs.Blocks.{num};

pub mod little;

// A block of 128 bits: hi holds the leftmost 64.
#[derive(Clone, Copy)]
pub struct Block {
    pub hi: u64,
    pub lo: u64,
}

impl From<u128> for Block {
    ghost from_gives = { λ n b. num b ≡ n };

    fn from(n: u128) -> Block {
        Block {
            hi: (n >> 64) as u64,
            lo: (n & 0xffff_ffff_ffff_ffff) as u64,
        }
    }
}

impl From<Block> for u128 {
    ghost from_gives = { λ b n. n ≡ num b };

    fn from(b: Block) -> u128 {
        (b.hi as u128) << 64 | b.lo as u128
    }
}

// The sum of two blocks.
pub fn add(a: Block, b: Block) -> Block
    ensures { num result ≡ bit_xor (num a) (num b) }
{
    Block {
        hi: a.hi ^ b.hi,
        lo: a.lo ^ b.lo,
    }
}

// The byte at i, or 0 past the end.
pub fn byte_at(s: &[u8], i: usize) -> u8
    ensures { result ≡ at s.now i }
{
    s.get(i).copied().unwrap_or(0)
}

// Copies src over the start of dst, as much of it as dst has room for.
pub fn copy(src: &[u8], dst: &mut [u8])
    ensures { dst.new ≡ over src.now dst.old }
{
    // A loop, which the compiler makes a memcpy: `copy_from_slice` is a memmove, a name that a host may not have.
    let n = src.len().min(dst.len());
    for i in 0..n {
        dst[i] = src[i];
    }
}

// The first N bytes of s, with zeros past its end.
pub fn first<const N: usize>(s: &[u8]) -> [u8; N]
    ensures { result ≡ padded N s.now }
{
    if let Some(t) = s.first_chunk::<N>() {
        return *t;
    }
    let mut t = [0u8; N];
    copy(s, &mut t);
    t
}

// The block that the first 16 bytes of s write, with zeros past its end.
pub fn first_block(s: &[u8]) -> Block
    ensures number { num result ≡ number (padded 16 s.now) }
    ensures bytes { bytes_of 16 (num result) ≡ padded 16 s.now }
{
    Block::from(u128::from_be_bytes(first(s)))
}

// The 16 bytes of a block.
pub fn block_bytes(b: Block) -> [u8; 16]
    ensures { result ≡ bytes_of 16 (num b) }
{
    u128::from(b).to_be_bytes()
}

// Writes the 16 bytes of a block over the start of s, as many of them as s has room for.
pub fn put_block(s: &mut [u8], b: Block)
    ensures { s.new ≡ over (bytes_of 16 (num b)) s.old }
{
    copy(&block_bytes(b), s);
}

// Whether two strings are equal. Where their lengths are, every byte of both is read, wherever they differ.
pub fn same(a: &[u8], b: &[u8]) -> bool
    ensures { result ≡ same_bytes a.now b.now }
{
    if a.len() != b.len() {
        return false;
    }
    let mut diff = 0;
    for (x, y) in a.iter().zip(b) {
        diff |= *x ^ *y;
    }
    diff == 0
}
