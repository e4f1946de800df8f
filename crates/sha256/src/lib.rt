//! SHA-256 (FIPS 180-4): the public digest call, and the hash of a lent buffer at full speed for the crates above.
//! Promises upward: every digest equals the standard's, for a message of any length; the public call refuses a long one.
#![tactic(auto)]

ghost use Rattle.std.specs.Prelude.{◌≡◌, ◌++◌, ◌+◌, ◌-◌, ◌*◌, ◌/◌, ◌%◌, ◌^◌, ◌<◌, length, take};
ghost use Rattle.words.specs.Numbers.{four_at};
ghost use Rattle.sha256.specs.Sha256.{K, after, blocks, padding, hash_of, hash_bytes, digest_of, answer};

use compression::{Hash, compressed, constants};
use verdict::Refusal;
use words::{Four, joined};

// 5.3.3: the initial hash value. `H0` is this in the definitions.
const INITIAL: Hash = Hash {
    a: 0x6a09e667,
    b: 0xbb67ae85,
    c: 0x3c6ef372,
    d: 0xa54ff53a,
    e: 0x510e527f,
    f: 0x9b05688c,
    g: 0x1f83d9ab,
    h: 0x5be0cd19,
};

// The whole blocks of a message; k is the table of constants. Inner.
fn absorb(k: &[u32; 64], m: &[u8]) -> Hash
    requires { k.now ≡ K }
    ensures { result ≡ after m.now (length m.now / 64) }
{
    let mut s = INITIAL;
    for b in m.chunks_exact(64) {
        s = compressed(s, k, b);
    }
    s
}

// What follows the whole blocks of the padded message: one block, or two. t is what follows them in the message, of x bits. Inner.
fn ending(t: &[u8], x: u64) -> [u8; 128]
    requires { length t.now < 64 }
    ensures { take (64 * blocks (length t.now)) result ≡ t.now ++ padding (length t.now) x }
{
    let mut b = [0u8; 128];
    let end = words::put_bytes(&mut b, 0, t);
    b[end] = 0x80;
    words::put_number::<8>(&mut b, (end + 72) / 64 * 64 - 8, x);
    b
}

/// The hash value of a message. The length in bits is told modulo 2 ^ 64, as eight bytes tell it.
pub fn hash_of(m: &[u8]) -> Hash
    ensures { result ≡ hash_of m.now }
{
    let n = m.len();
    let q = n / 64 * 64;
    let b = ending(&m[q..], (n as u64) << 3);
    let k = constants();
    let s = compressed(absorb(&k, m), &k, &b[0..64]);
    if n % 64 < 56 {
        s
    } else {
        compressed(s, &k, &b[64..128])
    }
}

/// The hash value's bytes as four words.
pub fn hash_words(s: Hash) -> Four
    ensures { result ≡ four_at (hash_bytes s) 0 }
{
    Four {
        first: joined(s.a, s.b),
        second: joined(s.c, s.d),
        third: joined(s.e, s.f),
        fourth: joined(s.g, s.h),
    }
}

/// The hash value's bytes.
pub fn hash_bytes(s: Hash) -> [u8; 32]
    ensures { result ≡ hash_bytes s }
{
    let mut b = [0u8; 32];
    words::put_four(&mut b, 0, hash_words(s));
    b
}

/// The digest of a message of at most 65,536 bytes.
#[tactic(auto, unfolding(crate::specs::Sha256::digest_of, crate::specs::Sha256::sha256))]
pub fn digest(m: &[u8]) -> Result<[u8; 32], Refusal>
    ensures { answer result ≡ digest_of m.now }
{
    if verdict::LONGEST < m.len() {
        return Err(Refusal::TooLong);
    }
    Ok(hash_bytes(hash_of(m)))
}
