// A text in its frame: head, ciphertext, tag, and a trailer with the whole length; and its nonce.
ghost use Rattle.std.specs.Prelude.{◌≡◌, ◌+◌, ◌-◌, ◌≤◌, length, take, drop};
ghost use Rattle.octets.specs.Lists.{put_over};
ghost use Rattle.gcm.specs.Answers.{text_put};
ghost use Rattle.sealed.specs.Aead.{prepared_by};
ghost use Rattle.sealed.specs.Nonce.{nonce_of};
ghost use Rattle.sealed.specs.Frame.{head_len, frame_len, framed, unframed, is_some};

use gcm::KeyRef;
use octets::little;

// The bytes of a head, of a trailer, and of all that a frame adds to its text.
pub const HEAD_LEN: usize = 20;

pub const TRAILER_LEN: usize = 4;

pub const FRAME_LEN: usize = HEAD_LEN + gcm::TAG_LEN + TRAILER_LEN;

// The 12 bytes of a nonce: the kind, the lane, which is 0 for a file, two zeros, and the number.
pub fn nonce_of(first: u8, lane: u8, number: u64) -> [u8; 12]
    ensures { result ≡ nonce_of first lane number }
{
    let mut n = [0u8; 12];
    n[0] = first;
    n[1] = lane;
    n[4..].copy_from_slice(&little::bytes8(number));
    n
}

// Whether s is a text in its frame; the text is put at the start of out.
pub fn unframe(k: KeyRef<'_>, nonce: [u8; 12], s: &[u8], out: &mut [u8]) -> bool
    requires { (frame_len ≤ length s.now) × (length s.now ≤ 65536) × (length s.now - frame_len ≤ length out.old) }
    ensures answer { result ≡ is_some (unframed (prepared_by k.entry.schedule.now k.entry.multiples.now) nonce s.now) }
    ensures buffer { out.new ≡ put_over (text_put (unframed (prepared_by k.entry.schedule.now k.entry.multiples.now) nonce s.now)) out.old }
{
    let e = s.len() - TRAILER_LEN;
    let trailer = little::u32_in(&s[e..]);
    if trailer as usize != s.len() {
        return false;
    }
    k.open(nonce, &s[..HEAD_LEN], &s[HEAD_LEN..e], out).is_ok()
}

// Seals the n bytes of text that stand in out from byte 20 on, in their place, and puts their frame around them. The
// cipher is lent the part of out behind the head, and no more.
pub fn put_framed(k: KeyRef<'_>, nonce: [u8; 12], head: [u8; HEAD_LEN], n: usize, out: &mut [u8])
    requires { (n ≤ 65536) × (n + frame_len ≤ length out.old) }
    ensures { out.new ≡ put_over (framed (prepared_by k.entry.schedule.now k.entry.multiples.now) nonce head (take n (drop head_len out.old))) out.old }
{
    octets::copy(&head, out);
    // There is room, so that it seals.
    let _ = k.seal(nonce, &head, &mut out[HEAD_LEN..], n);
    let f = HEAD_LEN + n + gcm::TAG_LEN;
    let trailer = little::bytes4((n + FRAME_LEN) as u32);
    octets::copy(&trailer, &mut out[f..]);
}
