// The cipher as a C program calls it, for the tests against other implementations and for the bench.
//
// A key is prepared into two arrays that the caller keeps, and is then lent to each call.
#![tactic(auto)]

ghost use Rattle.std.specs.Prelude.{◌≡◌, cond, eqb, length};
ghost use Rattle.aes.specs.Cipher.{cipher};
ghost use Rattle.ghash.specs.Multiples.{product_by};
ghost use Rattle.gcm.specs.Key.{prepared};
ghost use Rattle.test_cipher.specs.Boundary.{seal_code, open_code, seal_number, seal_buffer, open_number, open_buffer};

use gcm::{KeyRef, OpenError, SealError};

// The number of an answer. Numbers, and not the enums, since C reads them.
fn seal_code(answer: Result<(), SealError>) -> u64
    ensures { result ≡ seal_code answer }
{
    match answer {
        Ok(()) => 0,
        Err(SealError::Short(_)) => 2,
        Err(SealError::Long) => 3,
    }
}

fn open_code(answer: Result<usize, OpenError>) -> u64
    ensures { result ≡ open_code answer }
{
    match answer {
        Ok(_) => 0,
        Err(OpenError::Short(_)) => 2,
        Err(OpenError::Long) => 3,
        Err(OpenError::Fail) => 4,
    }
}

// Prepares a key: 0, or 1 where it is not 16 bytes long. `test_sealed` exports the same under its own name.
#[unsafe(no_mangle)]
pub extern "C" fn cipher_prepare(key: &[u8], w: &mut [u32; 44], m: &mut [u64; 1024]) -> u64
    ensures answer { result ≡ cond (eqb (length key.now) 16) 0 1 }
    ensures schedule { w.new ≡ cond (eqb (length key.now) 16) (prepared key.now).schedule w.old }
    ensures multiples { m.new ≡ cond (eqb (length key.now) 16) (prepared key.now).multiples m.old }
{
    let Ok(key) = <[u8; 16]>::try_from(key) else {
        return 1;
    };
    *w = gcm::prepare_in(key, m);
    0
}

// Encrypts the first n bytes of buf in their place and puts the tag behind them.
#[unsafe(no_mangle)]
pub extern "C" fn cipher_seal<'a>(
    w: &'a [u32; 44],
    m: &'a [u64; 1024],
    iv: &[u8],
    aad: &[u8],
    buf: &mut [u8],
    n: usize,
) -> u64
    ensures answer { result ≡ seal_number (cipher w.now) (product_by m.now) iv.now aad.now n buf.old }
    ensures buffer { buf.new ≡ seal_buffer (cipher w.now) (product_by m.now) iv.now aad.now n buf.old }
{
    let Ok(iv) = <[u8; 12]>::try_from(iv) else {
        return 1;
    };
    let key = KeyRef {
        schedule: w,
        multiples: m,
    };
    seal_code(key.seal(iv, aad, buf, n))
}

// Opens a ciphertext with its tag behind it into the start of out.
#[unsafe(no_mangle)]
pub extern "C" fn cipher_open<'a>(
    w: &'a [u32; 44],
    m: &'a [u64; 1024],
    iv: &[u8],
    aad: &[u8],
    s: &[u8],
    out: &mut [u8],
) -> u64
    ensures answer { result ≡ open_number (cipher w.now) (product_by m.now) iv.now aad.now s.now out.old }
    ensures buffer { out.new ≡ open_buffer (cipher w.now) (product_by m.now) iv.now aad.now s.now out.old }
{
    let Ok(iv) = <[u8; 12]>::try_from(iv) else {
        return 1;
    };
    let key = KeyRef {
        schedule: w,
        multiples: m,
    };
    open_code(key.open(iv, aad, s, out))
}
