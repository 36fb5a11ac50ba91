// Log records and checkpoint files (01, Layouts): sealed into the start of a lent buffer, and opened from a slice.
//
// Both are a text in a frame: a head of 20 bytes, which is authenticated, the ciphertext, its tag, and a trailer that
// holds the whole length. The key is lent prepared (see gcm), whatever it is. Sealing writes the text
// to its place in the lent buffer, from byte 20 on, and encrypts it there (02, CR 3): no other buffer holds it. Opening
// gives what was read, or `None`.
#![tactic(auto)]

pub mod file;
mod frame;
pub mod record;

pub use frame::{FRAME_LEN, nonce_of};
