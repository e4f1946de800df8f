//! SHA-256's compression (FIPS 180-4, 6.2.2): one block worked into a hash value, at full speed.
//! Promises upward: the hash value is the standard's.
#![tactic(auto)]

ghost use Rattle.std.specs.Prelude.{◌≡◌, ◌+◌, ◌/◌, ◌^◌, ◌<◌, ◌≤◌, bit_xor, length, take, slice_index};
ghost use Rattle.std.specs.Int.{w32, rotate_right};
ghost use Rattle.compression.specs.Functions.{ch, maj, sum0, sum1, sigma0, sigma1};
ghost use Rattle.compression.specs.Compression.{K, round, plus, words, next, compress};
ghost use Rattle.compression.specs.Steps.{upto, grown, extended};

// 4.2.2: the round constants. `K` is this table in the definitions.
const ROUND_CONSTANTS: [u32; 64] = [
    0x428a2f98, 0x71374491, 0xb5c0fbcf, 0xe9b5dba5, 0x3956c25b, 0x59f111f1, 0x923f82a4, 0xab1c5ed5,
    0xd807aa98, 0x12835b01, 0x243185be, 0x550c7dc3, 0x72be5d74, 0x80deb1fe, 0x9bdc06a7, 0xc19bf174,
    0xe49b69c1, 0xefbe4786, 0x0fc19dc6, 0x240ca1cc, 0x2de92c6f, 0x4a7484aa, 0x5cb0a9dc, 0x76f988da,
    0x983e5152, 0xa831c66d, 0xb00327c8, 0xbf597fc7, 0xc6e00bf3, 0xd5a79147, 0x06ca6351, 0x14292967,
    0x27b70a85, 0x2e1b2138, 0x4d2c6dfc, 0x53380d13, 0x650a7354, 0x766a0abb, 0x81c2c92e, 0x92722c85,
    0xa2bfe8a1, 0xa81a664b, 0xc24b8b70, 0xc76c51a3, 0xd192e819, 0xd6990624, 0xf40e3585, 0x106aa070,
    0x19a4c116, 0x1e376c08, 0x2748774c, 0x34b0bcb5, 0x391c0cb3, 0x4ed8aa4a, 0x5b9cca4f, 0x682e6ff3,
    0x748f82ee, 0x78a5636f, 0x84c87814, 0x8cc70208, 0x90befffa, 0xa4506ceb, 0xbef9a3f7, 0xc67178f2,
];

/// The hash value: eight words.
#[derive(Clone, Copy, Debug, PartialEq, Eq)]
pub struct Hash {
    pub a: u32,
    pub b: u32,
    pub c: u32,
    pub d: u32,
    pub e: u32,
    pub f: u32,
    pub g: u32,
    pub h: u32,
}

/// The round constants, for a caller to lay out in memory once for a message.
#[tactic(auto, unfolding(crate::specs::Compression::K))]
pub fn constants() -> [u32; 64]
    ensures { result ≡ K }
{
    ROUND_CONSTANTS
}

// The three rotations of a word that a sum is made of.
fn sum<const A: u32, const B: u32, const C: u32>(x: u32) -> u32
    ensures { result ≡ bit_xor (bit_xor (rotate_right w32 x A) (rotate_right w32 x B)) (rotate_right w32 x C) }
{
    x.rotate_right(A) ^ x.rotate_right(B) ^ x.rotate_right(C)
}

fn sum0(x: u32) -> u32
    ensures { result ≡ sum0 x }
{
    sum::<2, 13, 22>(x)
}

fn sum1(x: u32) -> u32
    ensures { result ≡ sum1 x }
{
    sum::<6, 11, 25>(x)
}

#[tactic(auto, using(crate::proofs::Bitwise::ch_is))]
fn choose(x: u32, y: u32, z: u32) -> u32
    ensures { result ≡ ch x y z }
{
    // one operation fewer than the standard's form
    (y ^ z) & x ^ z
}

#[tactic(auto, using(crate::proofs::Bitwise::maj_is))]
fn most(x: u32, y: u32, z: u32) -> u32
    ensures { result ≡ maj x y z }
{
    // y ^ z is the x ^ y of the round before
    (x ^ y) & (y ^ z) ^ y
}

#[tactic(auto, unfolding(crate::specs::Compression::round))]
fn one_round(s: Hash, k: u32, w: u32) -> Hash
    ensures { result ≡ round k w s }
{
    let t1 = s
        .h
        .wrapping_add(sum1(s.e))
        .wrapping_add(choose(s.e, s.f, s.g))
        .wrapping_add(k)
        .wrapping_add(w);
    let t2 = sum0(s.a).wrapping_add(most(s.a, s.b, s.c));
    Hash {
        a: t1.wrapping_add(t2),
        b: s.a,
        c: s.b,
        d: s.c,
        e: s.d.wrapping_add(t1),
        f: s.e,
        g: s.f,
        h: s.g,
    }
}

// Two rotations of a word and a shift.
fn sigma<const A: u32, const B: u32, const C: u32>(x: u32) -> u32
    requires { C < 32 }
    ensures { result ≡ bit_xor (bit_xor (rotate_right w32 x A) (rotate_right w32 x B)) (x / 2 ^ C) }
{
    x.rotate_right(A) ^ x.rotate_right(B) ^ x >> C
}

fn sigma_0(x: u32) -> u32
    ensures { result ≡ sigma0 x }
{
    sigma::<7, 18, 3>(x)
}

fn sigma_1(x: u32) -> u32
    ensures { result ≡ sigma1 x }
{
    sigma::<17, 19, 10>(x)
}

// Word 16 + j of a schedule whose words before it are there. Inner.
#[tactic(auto, unfolding(crate::specs::Compression::next))]
fn next_word(w: &[u32; 64], j: usize) -> u32
    requires { j < 48 }
    ensures { result ≡ next w.now j }
{
    sigma_1(w[j + 14])
        .wrapping_add(w[j + 9])
        .wrapping_add(sigma_0(w[j + 1]))
        .wrapping_add(w[j])
}

// The sixteen words of a block, with room for the rest of the schedule. Inner.
fn loaded(b: &[u8]) -> [u32; 64]
    requires { length b.now ≡ 64 }
    ensures { take 16 result ≡ words b.now 16 }
{
    let mut w = [0u32; 64];
    for i in 0..16 {
        w[i] = words::read_number::<4>(b, 4 * i) as u32;
    }
    w
}

// Word 16 + j of a schedule, put in its place. Inner.
fn grow(w: &mut [u32; 64], j: usize)
    requires { j < 48 }
    ensures { w.new ≡ grown w.old j }
{
    w[16 + j] = next_word(w, j);
}

// Four more words of the schedule, while there are any to come.
#[tactic(auto, using(crate::proofs::Laws::extended_none), unfolding(crate::specs::Steps::extended))]
fn extend(w: &mut [u32; 64], j: usize)
    ensures { w.new ≡ extended w.old j }
{
    if j <= 44 {
        grow(w, j);
        grow(w, j + 1);
        grow(w, j + 2);
        grow(w, j + 3);
    }
}

fn add_hash(s: Hash, t: Hash) -> Hash
    ensures { result ≡ plus s t }
{
    Hash {
        a: s.a.wrapping_add(t.a),
        b: s.b.wrapping_add(t.b),
        c: s.c.wrapping_add(t.c),
        d: s.d.wrapping_add(t.d),
        e: s.e.wrapping_add(t.e),
        f: s.f.wrapping_add(t.f),
        g: s.g.wrapping_add(t.g),
        h: s.h.wrapping_add(t.h),
    }
}

// Round i. Inner.
fn round_at(s: Hash, k: &[u32; 64], w: &[u32; 64], i: usize) -> Hash
    requires { i < 64 }
    ensures { result ≡ round (slice_index k.now i) (slice_index w.now i) s }
{
    one_round(s, k[i], w[i])
}

// Four rounds, from round i on. Inner.
#[tactic(auto, unfolding(crate::specs::Steps::upto))]
fn four(s: Hash, k: &[u32; 64], w: &[u32; 64], i: usize) -> Hash
    requires { i + 4 ≤ 64 }
    ensures { result ≡ upto k.now w.now i s 4 }
{
    let a = round_at(s, k, w, i);
    let b = round_at(a, k, w, i + 1);
    let c = round_at(b, k, w, i + 2);
    round_at(c, k, w, i + 3)
}

/// The hash value s with the block b worked in; k is the table of constants. Schedule and rounds go side by side, four at a time. Inner.
pub fn compressed(s: Hash, k: &[u32; 64], b: &[u8]) -> Hash
    requires { (k.now ≡ K) × (length b.now ≡ 64) }
    ensures { result ≡ compress s b.now }
{
    let mut w = loaded(b);
    let mut t = s;
    for i in (0..64).step_by(4) {
        extend(&mut w, i);
        t = four(t, k, &w, i);
    }
    add_hash(s, t)
}
