// GHASH (NIST SP 800-38D, 6.3 and 6.4) by a table of the hash subkey's multiples.
//
// The subkey H is prepared once, as a table of 32 rows of 16 blocks: row j, entry n is H times the block whose four
// bits from bit 4j on write n. X • H is then the sum of 32 entries, with no shift. The functions promise the hash by
// whatever table they are lent, so nothing public has a `requires`; by H's table it is the standard's (`product_is`, in
// proofs/TableLaws.antt).
// The entries are looked up by bits of what is hashed: no constant time is claimed.
#![tactic(auto)]

ghost use Rattle.std.specs.Prelude.{◌≡◌, ℕ, ◌+◌, ◌≤◌, length};
ghost use Rattle.std.proofs.Math.Seq.{paste};
ghost use Rattle.octets.specs.Blocks.{num};
ghost use Rattle.ghash.specs.Field.{shifted, products};
ghost use Rattle.ghash.specs.Ghash.{blocks_of, ghash};
ghost use Rattle.ghash.specs.Multiples.{words_to, multiples_in, sum_to, product_by};

use octets::{Block, add, first_block};

// The words of a table.
pub const TABLE_LEN: usize = 1024;

// V >> 1, with R added where V's rightmost bit is 1.
fn shift(v: Block) -> Block
    ensures { num result ≡ shifted (num v) }
{
    Block {
        hi: (v.hi / 2) ^ (0xe100_0000_0000_0000 * (v.lo % 2)),
        lo: v.lo / 2 + 0x8000_0000_0000_0000 * (v.hi % 2),
    }
}

// Four steps of V.
fn shift4(v: Block) -> Block
    ensures { num result ≡ shifted (shifted (shifted (shifted (num v)))) }
{
    shift(shift(shift(shift(v))))
}

// What each four bits come to where V is v, as two words each: a table is words, since C keeps it.
fn row(v: Block) -> [u64; 32]
    ensures { result ≡ words_to 16 (λ (n : ℕ). products 4 n 0 (num v)) }
{
    let w = shift(v);
    let x = shift(w);
    let y = shift(x);
    [
        0,
        0,
        y.hi,
        y.lo,
        x.hi,
        x.lo,
        x.hi ^ y.hi,
        x.lo ^ y.lo,
        w.hi,
        w.lo,
        w.hi ^ y.hi,
        w.lo ^ y.lo,
        w.hi ^ x.hi,
        w.lo ^ x.lo,
        w.hi ^ x.hi ^ y.hi,
        w.lo ^ x.lo ^ y.lo,
        v.hi,
        v.lo,
        v.hi ^ y.hi,
        v.lo ^ y.lo,
        v.hi ^ x.hi,
        v.lo ^ x.lo,
        v.hi ^ x.hi ^ y.hi,
        v.lo ^ x.lo ^ y.lo,
        v.hi ^ w.hi,
        v.lo ^ w.lo,
        v.hi ^ w.hi ^ y.hi,
        v.lo ^ w.lo ^ y.lo,
        v.hi ^ w.hi ^ x.hi,
        v.lo ^ w.lo ^ x.lo,
        v.hi ^ w.hi ^ x.hi ^ y.hi,
        v.lo ^ w.lo ^ x.lo ^ y.lo,
    ]
}

// Writes a row into the table, from word at on.
// Word by word: by `copy_from_slice` preparing a key takes 1,150 ns in place of 630.
fn put_row(m: &mut [u64], at: usize, r: [u64; 32])
    requires { at + 32 ≤ length m.old }
    ensures { m.new ≡ paste m.old at r 32 }
{
    for i in 0..32 {
        m[at + i] = r[i];
    }
}

// Fills m, of 1024 words, with the table of H's multiples. An m of another length is left as it was.
pub fn put_multiples(m: &mut [u64], h: Block)
    ensures { m.new ≡ multiples_in (num h) m.old }
{
    if m.len() != TABLE_LEN {
        return;
    }
    let mut v = h;
    // By the row's number: of what `chunks_exact_mut` lends, a proof knows no element once it is given back.
    for j in 0..32 {
        put_row(m, 32 * j, row(v));
        v = shift4(v);
    }
}

// z0 and the 16 entries that the word x picks in the rows from b on.
fn half(m: &[u64; 1024], b: usize, x: u64, z0: Block) -> Block
    requires { b ≤ 16 }
    ensures { num result ≡ sum_to m.now b x (num z0) 16 }
{
    let mut z = z0;
    for k in 0..16 {
        let n = ((x >> (60 - 4 * k)) % 16) as usize;
        let at = 32 * (b + k) + 2 * n;
        let entry = Block {
            hi: m[at],
            lo: m[at + 1],
        };
        z = add(z, entry);
    }
    z
}

// X • H by a table.
pub fn product(m: &[u64; 1024], x: Block) -> Block
    ensures { num result ≡ product_by m.now (num x) }
{
    let z = half(m, 0, x.hi, Block { hi: 0, lo: 0 });
    half(m, 16, x.lo, z)
}

// GHASH goes on from y0 over the bytes of s, the last block padded with zeros.
pub fn hash(m: &[u64; 1024], y0: Block, s: &[u8]) -> Block
    ensures { num result ≡ ghash (product_by m.now) (num y0) (blocks_of s.now) }
{
    let mut y = y0;
    for block in s.chunks(16) {
        y = product(m, add(y, first_block(block)));
    }
    y
}
