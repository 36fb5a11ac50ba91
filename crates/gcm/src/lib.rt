// AES-128-GCM (NIST SP 800-38D, section 7): a 96-bit IV, a 128-bit tag, any additional data and any text within the
// standard's limits.
//
// A prepared key is a struct by value: the round keys, and the hash key as the table of its multiples. The functions
// promise GCM over those round keys and that table, whatever they are, so nothing public has a `requires`; a law says
// that preparing a key makes it AES-128-GCM under that key (`prepared-encrypts`, `prepared-decrypts`, in
// proofs/KeyLaws.antt). A `KeyRef` lends the two parts, for a caller who seals and opens many texts; `Key`'s own `seal` and
// `open` are the same on the struct.
//
// Decryption compares the whole tag before it writes a byte.
#![tactic(auto)]

ghost use Rattle.std.specs.Prelude.{◌≡◌, ◌+◌, ◌≤◌, length, take, drop};
ghost use Rattle.octets.specs.Lists.{put_over};
ghost use Rattle.octets.specs.Blocks.{num};
ghost use Rattle.octets.specs.Bytes.{bytes_of, same_bytes};
ghost use Rattle.aes.specs.Cipher.{cipher};
ghost use Rattle.ghash.specs.Multiples.{multiples_in, product_by};
ghost use Rattle.gcm.specs.Gcm.{max_plain, max_data, tag_len, aes_under, subkey, pre_counter, hash_of, cipher_text, tag_of, sealed};
ghost use Rattle.gcm.specs.Key.{prepared};
ghost use Rattle.gcm.specs.Answers.{beyond, sealing, sealed_in, opening, opened_in};

use octets::Block;

// A prepared key.
#[derive(Clone, Copy)]
pub struct Key {
    pub schedule: [u32; 44],
    pub multiples: [u64; 1024],
}

// A prepared key, lent: its two parts stay where their owner keeps them, and are not copied for a call.
#[derive(Clone, Copy)]
pub struct KeyRef<'a> {
    pub schedule: &'a [u32; 44],
    pub multiples: &'a [u64; 1024],
}

// Why a text is not sealed.
#[derive(Clone, Copy, Debug, PartialEq, Eq)]
pub enum SealError {
    // The buffer needs so many bytes.
    Short(usize),
    // The text or the data is longer than the standard allows.
    Long,
}

// Why a text is not opened.
#[derive(Clone, Copy, Debug, PartialEq, Eq)]
pub enum OpenError {
    // The tag does not fit, or there is none.
    Fail,
    // The buffer needs so many bytes.
    Short(usize),
    // The text or the data is longer than the standard allows.
    Long,
}

// The most bytes of a text and of additional data, and the bytes of a tag.
pub const MAX_PLAIN: usize = 0xf_ffff_ffe0;

pub const MAX_DATA: usize = 0x1fff_ffff_ffff_ffff;

pub const TAG_LEN: usize = 16;
// The words of a hash key's multiples.
pub const MULTIPLES_LEN: usize = ghash::TABLE_LEN;

// The pre-counter block of an IV.
fn pre_counter(iv: [u8; 12]) -> Block
    ensures { num result ≡ pre_counter iv }
{
    let mut j = [0u8; 16];
    j[..12].copy_from_slice(&iv);
    j[15] = 1;
    octets::first_block(&j)
}

// Prepares a key in two parts: its schedule, and in m, of 1024 words, the multiples of its hash key. An m of another length
// is left as it was.
pub fn prepare_in(key: [u8; 16], m: &mut [u64]) -> [u32; 44]
    ensures schedule { result ≡ (prepared key).schedule }
    ensures multiples { m.new ≡ multiples_in (subkey (aes_under key)) m.old }
{
    let w = aes_key::key_expansion(key);
    let h = aes::encrypt(&w, Block { hi: 0, lo: 0 });
    ghash::put_multiples(m, h);
    w
}

// Prepares a key as one struct, whose 8 KB may be copied as it is handed back; prepare_in puts them where the caller has them.
pub fn prepare(key: [u8; 16]) -> Key
    ensures { result ≡ prepared key }
{
    let mut k = Key {
        schedule: [0u32; 44],
        multiples: [0u64; MULTIPLES_LEN],
    };
    k.schedule = prepare_in(key, &mut k.multiples);
    k
}

// Whether a text of n bytes or data of d bytes is longer than the standard allows.
fn beyond(n: usize, d: usize) -> bool
    ensures { result ≡ beyond n d }
{
    MAX_PLAIN < n || MAX_DATA < d
}

// What is sealed or opened: a text of n bytes under a key, an IV and additional data, within the standard's limits.
#[derive(Clone, Copy)]
struct Message<'a> {
    key: KeyRef<'a>,
    iv: [u8; 12],
    aad: &'a [u8],
    n: usize,
    ghost data_within: { length aad.now ≤ max_data },
    ghost text_within: { n ≤ max_plain },
}

impl<'a> Message<'a> {
    // The hash of the data and the ciphertext.
    fn hash(self, c: &[u8]) -> Block
        requires { length c.now ≡ self.n }
        ensures { num result ≡ hash_of (product_by self.entry.key.multiples.now) self.entry.aad.now c.now }
    {
        let m = self.key.multiples;
        let y = ghash::hash(m, Block { hi: 0, lo: 0 }, self.aad);
        let z = ghash::hash(m, y, c);
        let lengths = Block {
            hi: self.aad.len() as u64 * 8,
            lo: c.len() as u64 * 8,
        };
        ghash::product(m, octets::add(z, lengths))
    }

    // The tag of the data and the ciphertext.
    fn tag(self, c: &[u8]) -> Block
        requires { length c.now ≡ self.n }
        ensures { bytes_of 16 (num result) ≡ tag_of (cipher self.entry.key.schedule.now) (product_by self.entry.key.multiples.now) self.entry.iv self.entry.aad.now c.now }
    {
        let mask = aes::encrypt(self.key.schedule, pre_counter(self.iv));
        octets::add(self.hash(c), mask)
    }

    // Encrypts the first n bytes of buf in their place and puts the tag behind them.
    fn put_sealed(self, buf: &mut [u8])
        requires { self.n + tag_len ≤ length buf.old }
        ensures { buf.new ≡ put_over (sealed (cipher self.entry.key.schedule.now) (product_by self.entry.key.multiples.now) self.entry.iv self.entry.aad.now (take self.entry.n buf.old)) buf.old }
    {
        let n = self.n;
        aes::counter(
            self.key.schedule,
            aes::next(pre_counter(self.iv)),
            &mut buf[..n],
        );
        let tag = self.tag(&buf[..n]);
        octets::put_block(&mut buf[n..], tag);
    }

    // Whether the bytes of s from n on are the tag of those before them.
    fn fits(self, s: &[u8]) -> bool
        requires { self.n ≤ length s.now }
        ensures { result ≡ same_bytes (drop self.entry.n s.now) (tag_of (cipher self.entry.key.schedule.now) (product_by self.entry.key.multiples.now) self.entry.iv self.entry.aad.now (take self.entry.n s.now)) }
    {
        let n = self.n;
        let tag = octets::block_bytes(self.tag(&s[..n]));
        octets::same(&s[n..], &tag)
    }

    // Decrypts the first n bytes of s into the start of out.
    fn put_text(self, s: &[u8], out: &mut [u8])
        requires { (self.n ≤ length s.now) × (self.n ≤ length out.old) }
        ensures { out.new ≡ put_over (cipher_text (cipher self.entry.key.schedule.now) self.entry.iv (take self.entry.n s.now)) out.old }
    {
        let n = self.n;
        octets::copy(&s[..n], out);
        aes::counter(
            self.key.schedule,
            aes::next(pre_counter(self.iv)),
            &mut out[..n],
        );
    }
}

impl<'a> KeyRef<'a> {
    // Encrypts the first n bytes of buf in their place and puts the tag behind them; every byte behind the tag stays. It
    // refuses a text or data beyond the standard, and a buffer with no room for the tag; buf is then as it came.
    pub fn seal(self, iv: [u8; 12], aad: &[u8], buf: &mut [u8], n: usize) -> Result<(), SealError>
        ensures answer { result ≡ sealing (length aad.now) n (length buf.old) }
        ensures buffer { buf.new ≡ sealed_in (cipher self.entry.schedule.now) (product_by self.entry.multiples.now) iv aad.now n buf.old }
    {
        if beyond(n, aad.len()) {
            return Err(SealError::Long);
        }
        let e = n + TAG_LEN;
        if buf.len() < e {
            return Err(SealError::Short(e));
        }
        let message = Message {
            key: self,
            iv,
            aad,
            n,
        };
        message.put_sealed(buf);
        Ok(())
    }

    // Opens a ciphertext with its tag behind it into the start of out, and gives the bytes of the text. It refuses fewer
    // bytes than a tag, a text or data beyond the standard, an output with no room for the text, and a tag that does not
    // fit; out is then as it came.
    pub fn open(
        self,
        iv: [u8; 12],
        aad: &[u8],
        s: &[u8],
        out: &mut [u8],
    ) -> Result<usize, OpenError>
        ensures answer { result ≡ opening (cipher self.entry.schedule.now) (product_by self.entry.multiples.now) iv aad.now s.now (length out.old) }
        ensures buffer { out.new ≡ opened_in (cipher self.entry.schedule.now) (product_by self.entry.multiples.now) iv aad.now s.now out.old }
    {
        if s.len() < TAG_LEN {
            return Err(OpenError::Fail);
        }
        let n = s.len() - TAG_LEN;
        if beyond(n, aad.len()) {
            return Err(OpenError::Long);
        }
        if out.len() < n {
            return Err(OpenError::Short(n));
        }
        let message = Message {
            key: self,
            iv,
            aad,
            n,
        };
        if !message.fits(s) {
            return Err(OpenError::Fail);
        }
        message.put_text(s, out);
        Ok(n)
    }
}

impl Key {
    // The key, lent.
    pub fn lend(&self) -> KeyRef<'_>
        ensures schedule { result.schedule.now ≡ self.now.schedule }
        ensures multiples { result.multiples.now ≡ self.now.multiples }
    {
        KeyRef {
            schedule: &self.schedule,
            multiples: &self.multiples,
        }
    }

    // `KeyRef::seal` by the key.
    pub fn seal(self, iv: [u8; 12], aad: &[u8], buf: &mut [u8], n: usize) -> Result<(), SealError>
        ensures answer { result ≡ sealing (length aad.now) n (length buf.old) }
        ensures buffer { buf.new ≡ sealed_in (cipher self.schedule) (product_by self.multiples) iv aad.now n buf.old }
    {
        self.lend().seal(iv, aad, buf, n)
    }

    // `KeyRef::open` by the key.
    pub fn open(
        self,
        iv: [u8; 12],
        aad: &[u8],
        s: &[u8],
        out: &mut [u8],
    ) -> Result<usize, OpenError>
        ensures answer { result ≡ opening (cipher self.schedule) (product_by self.multiples) iv aad.now s.now (length out.old) }
        ensures buffer { out.new ≡ opened_in (cipher self.schedule) (product_by self.multiples) iv aad.now s.now out.old }
    {
        self.lend().open(iv, aad, s, out)
    }
}
