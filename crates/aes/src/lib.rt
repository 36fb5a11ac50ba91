// AES-128 (FIPS 197, section 5.1) and counter mode over it (SP 800-38D, 6.5).
//
// A state is four columns, each a word. A round looks up each byte in a table that holds the column the byte gives after
// SubBytes and MixColumns; the table is tested against that rule once, as the S-box is. It holds each column twice, so
// that the column turned by a byte or more is read off and not computed. The tables are taken once a call: a constant
// array costs a copy wherever it is named. Lookups by secret bytes are not constant-time.
#![tactic(auto)]

ghost use Rattle.std.specs.Prelude.{◌≡◌, [], ◌∷◌, ◌<◌};
ghost use Rattle.octets.specs.Blocks.{num};
ghost use Rattle.octets.specs.Bytes.{bytes_of};
ghost use Rattle.octets.specs.Lists.{at};
ghost use Rattle.aes_key.specs.Sbox.{sbox};
ghost use Rattle.aes_key.specs.Words.{byte0, byte1, byte2, byte3};
ghost use Rattle.aes.specs.Cipher.{column, sub_bytes, shift_rows, mix_column, mix_columns, add_round_key, round_key, cipher};
ghost use Rattle.aes.specs.Rounds.{state, IsRound};
ghost use Rattle.aes.specs.Counter.{inc32, gctr};

use octets::Block;

// A state: its four columns.
#[derive(Clone, Copy)]
pub struct Columns {
    pub a: u32,
    pub b: u32,
    pub c: u32,
    pub d: u32,
}

// The state of a block.
impl From<Block> for Columns {
    ghost from_gives = { λ b s. state s ≡ bytes_of 16 (num b) };

    fn from(b: Block) -> Columns {
        Columns {
            a: (b.hi >> 32) as u32,
            b: (b.hi & 0xffff_ffff) as u32,
            c: (b.lo >> 32) as u32,
            d: (b.lo & 0xffff_ffff) as u32,
        }
    }
}

// The block of a state.
impl From<Columns> for Block {
    ghost from_gives = { λ s b. bytes_of 16 (num b) ≡ state s };

    fn from(s: Columns) -> Block {
        Block {
            hi: (s.a as u64) << 32 | s.b as u64,
            lo: (s.c as u64) << 32 | s.d as u64,
        }
    }
}

impl Columns {
    // AddRoundKey, with the key of round r.
    fn add_key(self, w: &[u32; 44], r: usize) -> Columns
        requires { r < 11 }
        ensures { state result ≡ add_round_key (state self) (round_key w.now r) }
    {
        Columns {
            a: self.a ^ w[4 * r],
            b: self.b ^ w[4 * r + 1],
            c: self.c ^ w[4 * r + 2],
            d: self.d ^ w[4 * r + 3],
        }
    }

    // ShiftRows, and f of the rows of each column that it makes.
    fn shifted<F: Fn(u32, u32, u32, u32) -> u32>(self, f: F) -> Columns
        requires { F.IsAlwaysCallable f }
        ensures a { F.post f self.a self.b self.c self.d result.a }
        ensures b { F.post f self.b self.c self.d self.a result.b }
        ensures c { F.post f self.c self.d self.a self.b result.c }
        ensures d { F.post f self.d self.a self.b self.c result.d }
    {
        Columns {
            a: f(self.a, self.b, self.c, self.d),
            b: f(self.b, self.c, self.d, self.a),
            c: f(self.c, self.d, self.a, self.b),
            d: f(self.d, self.a, self.b, self.c),
        }
    }
}

// The round table: at each byte the column that it gives in row 0, twice.
const TE: [u64; 256] = [
    0xc66363a5c66363a5,
    0xf87c7c84f87c7c84,
    0xee777799ee777799,
    0xf67b7b8df67b7b8d,
    0xfff2f20dfff2f20d,
    0xd66b6bbdd66b6bbd,
    0xde6f6fb1de6f6fb1,
    0x91c5c55491c5c554,
    0x6030305060303050,
    0x0201010302010103,
    0xce6767a9ce6767a9,
    0x562b2b7d562b2b7d,
    0xe7fefe19e7fefe19,
    0xb5d7d762b5d7d762,
    0x4dababe64dababe6,
    0xec76769aec76769a,
    0x8fcaca458fcaca45,
    0x1f82829d1f82829d,
    0x89c9c94089c9c940,
    0xfa7d7d87fa7d7d87,
    0xeffafa15effafa15,
    0xb25959ebb25959eb,
    0x8e4747c98e4747c9,
    0xfbf0f00bfbf0f00b,
    0x41adadec41adadec,
    0xb3d4d467b3d4d467,
    0x5fa2a2fd5fa2a2fd,
    0x45afafea45afafea,
    0x239c9cbf239c9cbf,
    0x53a4a4f753a4a4f7,
    0xe4727296e4727296,
    0x9bc0c05b9bc0c05b,
    0x75b7b7c275b7b7c2,
    0xe1fdfd1ce1fdfd1c,
    0x3d9393ae3d9393ae,
    0x4c26266a4c26266a,
    0x6c36365a6c36365a,
    0x7e3f3f417e3f3f41,
    0xf5f7f702f5f7f702,
    0x83cccc4f83cccc4f,
    0x6834345c6834345c,
    0x51a5a5f451a5a5f4,
    0xd1e5e534d1e5e534,
    0xf9f1f108f9f1f108,
    0xe2717193e2717193,
    0xabd8d873abd8d873,
    0x6231315362313153,
    0x2a15153f2a15153f,
    0x0804040c0804040c,
    0x95c7c75295c7c752,
    0x4623236546232365,
    0x9dc3c35e9dc3c35e,
    0x3018182830181828,
    0x379696a1379696a1,
    0x0a05050f0a05050f,
    0x2f9a9ab52f9a9ab5,
    0x0e0707090e070709,
    0x2412123624121236,
    0x1b80809b1b80809b,
    0xdfe2e23ddfe2e23d,
    0xcdebeb26cdebeb26,
    0x4e2727694e272769,
    0x7fb2b2cd7fb2b2cd,
    0xea75759fea75759f,
    0x1209091b1209091b,
    0x1d83839e1d83839e,
    0x582c2c74582c2c74,
    0x341a1a2e341a1a2e,
    0x361b1b2d361b1b2d,
    0xdc6e6eb2dc6e6eb2,
    0xb45a5aeeb45a5aee,
    0x5ba0a0fb5ba0a0fb,
    0xa45252f6a45252f6,
    0x763b3b4d763b3b4d,
    0xb7d6d661b7d6d661,
    0x7db3b3ce7db3b3ce,
    0x5229297b5229297b,
    0xdde3e33edde3e33e,
    0x5e2f2f715e2f2f71,
    0x1384849713848497,
    0xa65353f5a65353f5,
    0xb9d1d168b9d1d168,
    0x0000000000000000,
    0xc1eded2cc1eded2c,
    0x4020206040202060,
    0xe3fcfc1fe3fcfc1f,
    0x79b1b1c879b1b1c8,
    0xb65b5bedb65b5bed,
    0xd46a6abed46a6abe,
    0x8dcbcb468dcbcb46,
    0x67bebed967bebed9,
    0x7239394b7239394b,
    0x944a4ade944a4ade,
    0x984c4cd4984c4cd4,
    0xb05858e8b05858e8,
    0x85cfcf4a85cfcf4a,
    0xbbd0d06bbbd0d06b,
    0xc5efef2ac5efef2a,
    0x4faaaae54faaaae5,
    0xedfbfb16edfbfb16,
    0x864343c5864343c5,
    0x9a4d4dd79a4d4dd7,
    0x6633335566333355,
    0x1185859411858594,
    0x8a4545cf8a4545cf,
    0xe9f9f910e9f9f910,
    0x0402020604020206,
    0xfe7f7f81fe7f7f81,
    0xa05050f0a05050f0,
    0x783c3c44783c3c44,
    0x259f9fba259f9fba,
    0x4ba8a8e34ba8a8e3,
    0xa25151f3a25151f3,
    0x5da3a3fe5da3a3fe,
    0x804040c0804040c0,
    0x058f8f8a058f8f8a,
    0x3f9292ad3f9292ad,
    0x219d9dbc219d9dbc,
    0x7038384870383848,
    0xf1f5f504f1f5f504,
    0x63bcbcdf63bcbcdf,
    0x77b6b6c177b6b6c1,
    0xafdada75afdada75,
    0x4221216342212163,
    0x2010103020101030,
    0xe5ffff1ae5ffff1a,
    0xfdf3f30efdf3f30e,
    0xbfd2d26dbfd2d26d,
    0x81cdcd4c81cdcd4c,
    0x180c0c14180c0c14,
    0x2613133526131335,
    0xc3ecec2fc3ecec2f,
    0xbe5f5fe1be5f5fe1,
    0x359797a2359797a2,
    0x884444cc884444cc,
    0x2e1717392e171739,
    0x93c4c45793c4c457,
    0x55a7a7f255a7a7f2,
    0xfc7e7e82fc7e7e82,
    0x7a3d3d477a3d3d47,
    0xc86464acc86464ac,
    0xba5d5de7ba5d5de7,
    0x3219192b3219192b,
    0xe6737395e6737395,
    0xc06060a0c06060a0,
    0x1981819819818198,
    0x9e4f4fd19e4f4fd1,
    0xa3dcdc7fa3dcdc7f,
    0x4422226644222266,
    0x542a2a7e542a2a7e,
    0x3b9090ab3b9090ab,
    0x0b8888830b888883,
    0x8c4646ca8c4646ca,
    0xc7eeee29c7eeee29,
    0x6bb8b8d36bb8b8d3,
    0x2814143c2814143c,
    0xa7dede79a7dede79,
    0xbc5e5ee2bc5e5ee2,
    0x160b0b1d160b0b1d,
    0xaddbdb76addbdb76,
    0xdbe0e03bdbe0e03b,
    0x6432325664323256,
    0x743a3a4e743a3a4e,
    0x140a0a1e140a0a1e,
    0x924949db924949db,
    0x0c06060a0c06060a,
    0x4824246c4824246c,
    0xb85c5ce4b85c5ce4,
    0x9fc2c25d9fc2c25d,
    0xbdd3d36ebdd3d36e,
    0x43acacef43acacef,
    0xc46262a6c46262a6,
    0x399191a8399191a8,
    0x319595a4319595a4,
    0xd3e4e437d3e4e437,
    0xf279798bf279798b,
    0xd5e7e732d5e7e732,
    0x8bc8c8438bc8c843,
    0x6e3737596e373759,
    0xda6d6db7da6d6db7,
    0x018d8d8c018d8d8c,
    0xb1d5d564b1d5d564,
    0x9c4e4ed29c4e4ed2,
    0x49a9a9e049a9a9e0,
    0xd86c6cb4d86c6cb4,
    0xac5656faac5656fa,
    0xf3f4f407f3f4f407,
    0xcfeaea25cfeaea25,
    0xca6565afca6565af,
    0xf47a7a8ef47a7a8e,
    0x47aeaee947aeaee9,
    0x1008081810080818,
    0x6fbabad56fbabad5,
    0xf0787888f0787888,
    0x4a25256f4a25256f,
    0x5c2e2e725c2e2e72,
    0x381c1c24381c1c24,
    0x57a6a6f157a6a6f1,
    0x73b4b4c773b4b4c7,
    0x97c6c65197c6c651,
    0xcbe8e823cbe8e823,
    0xa1dddd7ca1dddd7c,
    0xe874749ce874749c,
    0x3e1f1f213e1f1f21,
    0x964b4bdd964b4bdd,
    0x61bdbddc61bdbddc,
    0x0d8b8b860d8b8b86,
    0x0f8a8a850f8a8a85,
    0xe0707090e0707090,
    0x7c3e3e427c3e3e42,
    0x71b5b5c471b5b5c4,
    0xcc6666aacc6666aa,
    0x904848d8904848d8,
    0x0603030506030305,
    0xf7f6f601f7f6f601,
    0x1c0e0e121c0e0e12,
    0xc26161a3c26161a3,
    0x6a35355f6a35355f,
    0xae5757f9ae5757f9,
    0x69b9b9d069b9b9d0,
    0x1786869117868691,
    0x99c1c15899c1c158,
    0x3a1d1d273a1d1d27,
    0x279e9eb9279e9eb9,
    0xd9e1e138d9e1e138,
    0xebf8f813ebf8f813,
    0x2b9898b32b9898b3,
    0x2211113322111133,
    0xd26969bbd26969bb,
    0xa9d9d970a9d9d970,
    0x078e8e89078e8e89,
    0x339494a7339494a7,
    0x2d9b9bb62d9b9bb6,
    0x3c1e1e223c1e1e22,
    0x1587879215878792,
    0xc9e9e920c9e9e920,
    0x87cece4987cece49,
    0xaa5555ffaa5555ff,
    0x5028287850282878,
    0xa5dfdf7aa5dfdf7a,
    0x038c8c8f038c8c8f,
    0x59a1a1f859a1a1f8,
    0x0989898009898980,
    0x1a0d0d171a0d0d17,
    0x65bfbfda65bfbfda,
    0xd7e6e631d7e6e631,
    0x844242c6844242c6,
    0xd06868b8d06868b8,
    0x824141c3824141c3,
    0x299999b0299999b0,
    0x5a2d2d775a2d2d77,
    0x1e0f0f111e0f0f11,
    0x7bb0b0cb7bb0b0cb,
    0xa85454fca85454fc,
    0x6dbbbbd66dbbbbd6,
    0x2c16163a2c16163a,
];

// The round table, which passes the test of its rule.
fn round_table() -> [u64; 256]
    ensures { IsRound result }
{
    TE
}

// The round table as the rounds look bytes up in it.
#[derive(Drop)]
struct RoundTable {
    table: [u64; 256],
    ghost is_round: { IsRound table },
}

impl RoundTable {
    fn new() -> RoundTable {
        RoundTable {
            table: round_table(),
        }
    }

    // The entries that make one column of a state after SubBytes and ShiftRows: row 0 from a, row 1 from b, and so on.
    fn entries(&self, a: u32, b: u32, c: u32, d: u32) -> [u64; 4]
        ensures { let t = self.now.table in result ≡ at t (byte0 a) ∷ at t (byte1 b) ∷ at t (byte2 c) ∷ at t (byte3 d) ∷ [] }
    {
        let [p, _, _, _] = a.to_be_bytes();
        let [_, q, _, _] = b.to_be_bytes();
        let [_, _, r, _] = c.to_be_bytes();
        let [_, _, _, s] = d.to_be_bytes();
        [
            self.table[p as usize],
            self.table[q as usize],
            self.table[r as usize],
            self.table[s as usize],
        ]
    }

    // That column after MixColumns too.
    fn mixed(&self, a: u32, b: u32, c: u32, d: u32) -> u32
        ensures { column result ≡ mix_column (sbox (byte0 a)) (sbox (byte1 b)) (sbox (byte2 c)) (sbox (byte3 d)) }
    {
        let [w, x, y, z] = self.entries(a, b, c, d);
        let p = (w & 0xffff_ffff) as u32;
        let q = (x >> 8 & 0xffff_ffff) as u32;
        let r = (y >> 16 & 0xffff_ffff) as u32;
        let s = (z >> 24 & 0xffff_ffff) as u32;
        p ^ q ^ r ^ s
    }

    // The column itself.
    fn subbed(&self, a: u32, b: u32, c: u32, d: u32) -> u32
        ensures { column result ≡ sbox (byte0 a) ∷ sbox (byte1 b) ∷ sbox (byte2 c) ∷ sbox (byte3 d) ∷ [] }
    {
        let [w, x, y, z] = self.entries(a, b, c, d);
        aes_key::word_of(
            w.to_le_bytes()[1],
            x.to_le_bytes()[1],
            y.to_le_bytes()[1],
            z.to_le_bytes()[1],
        )
    }

    // Round r.
    fn round(&self, w: &[u32; 44], r: usize, s: Columns) -> Columns
        requires { r < 11 }
        ensures { state result ≡ add_round_key (mix_columns (shift_rows (sub_bytes (state s)))) (round_key w.now r) }
    {
        s.shifted(|a, b, c, d| self.mixed(a, b, c, d)).add_key(w, r)
    }

    // The last round.
    fn last_round(&self, w: &[u32; 44], s: Columns) -> Columns
        ensures { state result ≡ add_round_key (shift_rows (sub_bytes (state s))) (round_key w.now 10) }
    {
        s.shifted(|a, b, c, d| self.subbed(a, b, c, d))
            .add_key(w, 10)
    }

    // The ciphertext of a block.
    fn encrypt(&self, w: &[u32; 44], b: Block) -> Block
        ensures { bytes_of 16 (num result) ≡ cipher w.now (bytes_of 16 (num b)) }
    {
        let mut s = Columns::from(b).add_key(w, 0);
        for r in 1..10 {
            s = self.round(w, r, s);
        }
        Block::from(self.last_round(w, s))
    }
}

// The ciphertext of a block under a key schedule.
pub fn encrypt(w: &[u32; 44], b: Block) -> Block
    ensures { bytes_of 16 (num result) ≡ cipher w.now (bytes_of 16 (num b)) }
{
    RoundTable::new().encrypt(w, b)
}

// The incrementing function on the last 32 bits.
pub fn next(b: Block) -> Block
    ensures { num result ≡ inc32 (num b) }
{
    let count = ((b.lo & 0xffff_ffff) as u32).wrapping_add(1);
    Block {
        hi: b.hi,
        lo: b.lo >> 32 << 32 | count as u64,
    }
}

// Counter mode over s in its place, from the counter block icb. The blocks go by their numbers: after a loop over `chunks_mut` a
// proof knows nothing of the slice but its length.
pub fn counter(w: &[u32; 44], icb: Block, s: &mut [u8])
    ensures { s.new ≡ gctr (cipher w.now) (num icb) s.old }
{
    let table = RoundTable::new();
    let mut cb = icb;
    for i in 0..s.len().div_ceil(16) {
        let mask = table.encrypt(w, cb);
        let block = &mut s[16 * i..];
        let text = octets::first_block(block);
        octets::put_block(block, octets::add(text, mask));
        cb = next(cb);
    }
}
