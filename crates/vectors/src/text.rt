// The text of a file of test vectors: fields with a space between them, bytes in hexadecimal.
//
// Nothing here has a `requires`: past the end of a line there is an empty field.
ghost use Rattle.std.specs.Prelude.{◌≡◌, ◌+◌, ◌*◌, ◌<◌, IfSome};
ghost use Rattle.arrayvec.specs.ArrayVec.{array_vec_len};
ghost use Rattle.vectors.specs.Hex.{digit_value, value_or_zero, bytes_to};

use arrayvec::ArrayVec;

// The most bytes of a field.
pub const MOST: usize = 128;

// The value of a hexadecimal digit.
#[tactic(auto, using(std::proofs::lemmas::Bool::Decides::nat_tests))]
fn digit(c: u8) -> Option<u8>
    ensures value { result ≡ digit_value c }
    ensures below { IfSome result (λ d. d < 16) }
{
    match c {
        b'0'..=b'9' => Some(c - b'0'),
        b'a'..=b'f' => Some(c - b'a' + 10),
        _ => None,
    }
}

// The byte that two digits write.
fn byte(high: u8, low: u8) -> Option<u8>
    ensures { IfSome result (λ b. b ≡ value_or_zero high * 16 + value_or_zero low) }
{
    Some(digit(high)? * 16 + digit(low)?)
}

// Field k of a line, counted from 0.
pub fn field(line: &[u8], k: usize) -> &[u8] {
    line.split(|b| *b == b' ').nth(k).unwrap_or(b"")
}

// The bytes that a field writes: two digits a byte, or "-" for none. There are none where it is not well formed: it has another
// byte or half a byte, is empty, or writes more than 128 bytes.
#[tactic(auto, unfolding(crate::specs::Hex::bytes_to))]
pub fn bytes(field: &[u8]) -> Option<ArrayVec<u8, MOST>>
    ensures { IfSome result (λ v. v.items ≡ bytes_to field.now (array_vec_len v)) }
{
    let mut bytes = ArrayVec::new();
    if matches!(field, b"-") {
        return Some(bytes);
    }
    if field.is_empty() || field.len() % 2 == 1 || 2 * MOST < field.len() {
        return None;
    }
    for pair in field.chunks_exact(2) {
        let b = byte(pair[0], pair[1])?;
        bytes.try_push(b).ok()?;
    }
    Some(bytes)
}

// The bytes of a field that is to write N, as a key, a block, a tag or an IV.
pub fn array<const N: usize>(field: &[u8]) -> Option<[u8; N]>
    ensures { IfSome result (λ a. a ≡ bytes_to field.now N) }
{
    let bytes = bytes(field)?;
    <[u8; N]>::try_from(bytes.as_slice()).ok()
}
