// Numbers in slices, the least significant byte first.
//
// What is read past a slice's end is 0.
ghost use Rattle.std.specs.Prelude.{◌≡◌};
ghost use Rattle.octets.specs.Bytes.{padded};
ghost use Rattle.octets.specs.Little.{little, little_bytes};

use super::first;

// The number that the first two bytes of s write.
// It is one line over the library's method: proofs above cite its clauses, in the words of the layouts (`little_bytes`).
pub fn u16_in(s: &[u8]) -> u16
    ensures number { result ≡ little (padded 2 s.now) }
    ensures bytes { little_bytes 2 result ≡ padded 2 s.now }
{
    u16::from_le_bytes(first(s))
}

// The number that the first four bytes of s write.
// It is one line over the library's method: proofs above cite its clauses, in the words of the layouts (`little_bytes`).
pub fn u32_in(s: &[u8]) -> u32
    ensures number { result ≡ little (padded 4 s.now) }
    ensures bytes { little_bytes 4 result ≡ padded 4 s.now }
{
    u32::from_le_bytes(first(s))
}

// The number that the first eight bytes of s write.
// It is one line over the library's method: proofs above cite its clauses, in the words of the layouts (`little_bytes`).
pub fn u64_in(s: &[u8]) -> u64
    ensures number { result ≡ little (padded 8 s.now) }
    ensures bytes { little_bytes 8 result ≡ padded 8 s.now }
{
    u64::from_le_bytes(first(s))
}

// The two bytes of a number.
// It is one line over the library's method: proofs above cite its clause, in the words of the layouts (`little_bytes`).
pub fn bytes2(x: u16) -> [u8; 2]
    ensures { result ≡ little_bytes 2 x }
{
    x.to_le_bytes()
}

// The four bytes of a number.
// It is one line over the library's method: proofs above cite its clause, in the words of the layouts (`little_bytes`).
pub fn bytes4(x: u32) -> [u8; 4]
    ensures { result ≡ little_bytes 4 x }
{
    x.to_le_bytes()
}

// The eight bytes of a number.
// It is one line over the library's method: proofs above cite its clause, in the words of the layouts (`little_bytes`).
pub fn bytes8(x: u64) -> [u8; 8]
    ensures { result ≡ little_bytes 8 x }
{
    x.to_le_bytes()
}
