//! AES-128 (FIPS 197): the key expansion, made once for a key, and the cipher on one block.
//! Rounds go by one table that joins SubBytes and MixColumns (crate sbox), and read the bytes of the expanded key as they need them.
//! Promises upward: the expansion and the cipher are the standard's, for any key, any block and any 176 bytes.
#![tactic(auto)]

ghost use Rattle.std.specs.Prelude.{◌≡◌, [], ◌∷◌, ◌+◌, ◌≤◌, ◌<◌, bit_xor, length};
ghost use Rattle.words.specs.Numbers.{number_at};
ghost use Rattle.sbox.specs.Field.{sub};
ghost use Rattle.sbox.specs.Columns.{pack};
ghost use Rattle.aes.specs.Aes.{byte0, byte1, byte2, byte3, column, state, round, last_round, cipher, rcon, push, next_of, expansion, key_words, block_at, block_bytes, encrypted};

use std::ops::BitXor;

/// Of a key, of a block, and of a key's expansion.
pub const KEY_BYTES: usize = 16;

pub const BLOCK_BYTES: usize = 16;

pub const EXPANDED_BYTES: usize = 176;

// Words of the expansion after the key's own.
const NEW_WORDS: usize = 40;

const FIRST_ROUND: usize = 1;

// The round without MixColumns. Those before it have all four steps.
const LAST_ROUND: usize = 10;

// Of the state.
const ROWS: usize = 4;

/// The state: its four columns as words, row 0 in the highest byte.
#[derive(Clone, Copy, Debug, PartialEq, Eq)]
pub struct Block {
    pub w0: u32,
    pub w1: u32,
    pub w2: u32,
    pub w3: u32,
}

impl Block {
    pub const ZERO: Self = Self {
        w0: 0,
        w1: 0,
        w2: 0,
        w3: 0,
    };

    // The columns from the second on, and v behind them.
    fn pushed(self, v: u32) -> Self
        ensures { result ≡ push self v }
    {
        Self {
            w0: self.w1,
            w1: self.w2,
            w2: self.w3,
            w3: v,
        }
    }
}

impl BitXor for Block {
    type Output = Self;

    ghost bitxor_gives = { λ s t r. r ≡ state (bit_xor s.w0 t.w0) (bit_xor s.w1 t.w1) (bit_xor s.w2 t.w2) (bit_xor s.w3 t.w3) };

    fn bitxor(self, other: Self) -> Self {
        Self {
            w0: self.w0 ^ other.w0,
            w1: self.w1 ^ other.w1,
            w2: self.w2 ^ other.w2,
            w3: self.w3 ^ other.w3,
        }
    }
}

/// An expanded key: 44 words, high byte first.
#[derive(Clone, Copy)]
pub struct Expanded {
    pub bytes: [u8; EXPANDED_BYTES],
}

// The bytes of a column that ShiftRows takes from four: row 0 from w, row 1 from x, and so on.
fn rows(w: u32, x: u32, y: u32, z: u32) -> [u8; ROWS]
    ensures { result ≡ byte0 w ∷ byte1 x ∷ byte2 y ∷ byte3 z ∷ [] }
{
    let [a, ..] = w.to_be_bytes();
    let [_, b, ..] = x.to_be_bytes();
    let [_, _, c, _] = y.to_be_bytes();
    let [.., d] = z.to_be_bytes();
    [a, b, c, d]
}

// One column after SubBytes, ShiftRows, MixColumns and AddRoundKey. The terms go to two sums, which are worked side by side.
#[tactic(auto, using(crate::proofs::Laws::mixed_law))]
fn mixed(w: u32, x: u32, y: u32, z: u32, k: u32) -> u32
    ensures { result ≡ column w x y z k }
{
    let [a, b, c, d] = rows(w, x, y, z);
    let even = k ^ sbox::spread_at(a) ^ sbox::spread_at(c).rotate_right(16);
    let odd = sbox::spread_at(b).rotate_right(8) ^ sbox::spread_at(d).rotate_right(24);
    even ^ odd
}

// A byte of each of four words, substituted.
fn substituted(w: u32, x: u32, y: u32, z: u32) -> u32
    ensures { result ≡ pack (sub (byte0 w)) (sub (byte1 x)) (sub (byte2 y)) (sub (byte3 z)) }
{
    let mut v = 0;
    for b in rows(w, x, y, z) {
        v = (v << 8) + sbox::sub_at(b);
    }
    v
}

// Round i, under the bytes of an expanded key. Inner.
#[tactic(auto, using(crate::proofs::Laws::round_law))]
fn one_round(k: &[u8; EXPANDED_BYTES], i: usize, s: Block) -> Block
    requires { i < 11 }
    ensures { result ≡ round (key_words k.now) i s }
{
    let u = block_at(k, BLOCK_BYTES * i);
    Block {
        w0: mixed(s.w0, s.w1, s.w2, s.w3, u.w0),
        w1: mixed(s.w1, s.w2, s.w3, s.w0, u.w1),
        w2: mixed(s.w2, s.w3, s.w0, s.w1, u.w2),
        w3: mixed(s.w3, s.w0, s.w1, s.w2, u.w3),
    }
}

// The last round, without MixColumns.
#[tactic(auto, using(crate::proofs::Laws::last_law))]
fn last_round(k: &[u8; EXPANDED_BYTES], s: Block) -> Block
    ensures { result ≡ last_round (key_words k.now) s }
{
    let t = Block {
        w0: substituted(s.w0, s.w1, s.w2, s.w3),
        w1: substituted(s.w1, s.w2, s.w3, s.w0),
        w2: substituted(s.w2, s.w3, s.w0, s.w1),
        w3: substituted(s.w3, s.w0, s.w1, s.w2),
    };
    t ^ block_at(k, BLOCK_BYTES * LAST_ROUND)
}

/// One block under the bytes of an expanded key. Its words are read where they are needed: to turn their bytes costs less than a copy. The
/// first round stands before the loop, and the whole in its caller: the compiler then keeps each column in a register of its own.
#[inline(always)]
pub fn encrypt_block(k: &[u8; EXPANDED_BYTES], s: Block) -> Block
    ensures { result ≡ cipher (key_words k.now) s }
{
    let mut x = one_round(k, FIRST_ROUND, s ^ block_at(k, 0));
    for i in FIRST_ROUND + 1..LAST_ROUND {
        x = one_round(k, i, x);
    }
    last_round(k, x)
}

// The word of four bytes. Inner.
fn load(b: &[u8], at: usize) -> u32
    requires { at + 4 ≤ length b.now }
    ensures { result ≡ number_at 4 b.now at }
{
    words::read_number::<4>(b, at) as u32
}

// The first byte of the round constant, and zeros. Inner.
#[tactic(auto, unfolding(crate::specs::Aes::power, sbox::specs::Field::xtime))]
fn round_constant(i: usize) -> u32
    requires { i < 10 }
    ensures { result ≡ rcon i }
{
    match i {
        0 => 0x01000000,
        1 => 0x02000000,
        2 => 0x04000000,
        3 => 0x08000000,
        4 => 0x10000000,
        5 => 0x20000000,
        6 => 0x40000000,
        7 => 0x80000000,
        8 => 0x1b000000,
        _ => 0x36000000,
    }
}

// Word j + 4 of the key schedule, from words j and j + 3. Inner.
fn next_word(u: u32, v: u32, j: usize) -> u32
    requires { j < 40 }
    ensures { result ≡ next_of u v j }
{
    if j % 4 == 0 {
        let w = v.rotate_left(8);
        u ^ (substituted(w, w, w, w) ^ round_constant(j / 4))
    } else {
        u ^ v
    }
}

/// The expansion of a key. The last four words are kept in s: bytes just written are slow to read back as a word.
pub fn expand(key: &[u8; KEY_BYTES]) -> Expanded
    ensures { result.bytes ≡ expansion key.now }
{
    let mut b = [0u8; EXPANDED_BYTES];
    words::put_bytes(&mut b, 0, key);
    let mut s = block_at(key, 0);
    for j in 0..NEW_WORDS {
        let w = next_word(s.w0, s.w3, j);
        words::put_number::<4>(&mut b, KEY_BYTES + 4 * j, u64::from(w));
        s = s.pushed(w);
    }
    Expanded { bytes: b }
}

/// The sixteen bytes of m from at on, as a state. Inner.
pub fn block_at(m: &[u8], at: usize) -> Block
    requires { at + 16 ≤ length m.now }
    ensures { result ≡ block_at m.now at }
{
    Block {
        w0: load(m, at),
        w1: load(m, at + 4),
        w2: load(m, at + 8),
        w3: load(m, at + 12),
    }
}

/// A state as sixteen bytes.
pub fn block_bytes(s: Block) -> [u8; BLOCK_BYTES]
    ensures { result ≡ block_bytes s }
{
    let mut b = [0u8; BLOCK_BYTES];
    words::put_number::<4>(&mut b, 0, u64::from(s.w0));
    words::put_number::<4>(&mut b, 4, u64::from(s.w1));
    words::put_number::<4>(&mut b, 8, u64::from(s.w2));
    words::put_number::<4>(&mut b, 12, u64::from(s.w3));
    b
}

/// One block under an expanded key that is lent.
#[tactic(auto, unfolding(crate::specs::Aes::encrypted))]
pub fn encrypt_under(key: &[u8; EXPANDED_BYTES], block: &[u8; BLOCK_BYTES]) -> [u8; BLOCK_BYTES]
    ensures { result ≡ encrypted key.now block.now }
{
    block_bytes(encrypt_block(key, block_at(block, 0)))
}
