//! AES-CMAC (RFC 4493) over blocks: the subkeys, the chain and the last block.
//! Promises upward: the tag as a block is the standard's for a message of any length.
#![tactic(auto)]

ghost use Rattle.std.specs.Prelude.{◌≡◌, ◌*◌, ◌≤◌, ◌<◌, length};
ghost use Rattle.aes.specs.Aes.{key_words};
ghost use Rattle.mac.specs.Cmac.{double, key1, whole, chain, padding, last_block, mac_block};

#[tactic(auto, unfolding(crate::specs::Cmac::double))]
fn doubled(s: aes::Block) -> aes::Block
    ensures { result ≡ double s }
{
    aes::Block {
        w0: (s.w0 << 1) + (s.w1 >> 31),
        w1: (s.w1 << 1) + (s.w2 >> 31),
        w2: (s.w2 << 1) + (s.w3 >> 31),
        w3: s.w3 << 1 ^ (s.w0 >> 31) * 0x87,
    }
}

// How many blocks stand before the last.
fn before_last(n: usize) -> usize
    ensures { result ≡ whole n }
{
    n.saturating_sub(1) / aes::BLOCK_BYTES
}

// The chain over the first n blocks of m. Inner.
fn chained(k: &[u8; aes::EXPANDED_BYTES], m: &[u8], n: usize) -> aes::Block
    requires { 16 * n ≤ length m.now }
    ensures { result ≡ chain (key_words k.now) m.now n }
{
    let mut x = aes::Block::ZERO;
    for i in 0..n {
        x = aes::encrypt_block(k, x ^ aes::block_at(m, aes::BLOCK_BYTES * i));
    }
    x
}

// A last block that is not whole, filled up. Inner.
#[tactic(auto, using(crate::proofs::Laws::filled_is))]
fn filled(l: &[u8]) -> [u8; aes::BLOCK_BYTES]
    requires { length l.now < 16 }
    ensures { result ≡ padding l.now }
{
    let mut b = [0u8; aes::BLOCK_BYTES];
    let end = words::put_bytes(&mut b, 0, l);
    b[end] = 0x80;
    b
}

// The first subkey.
#[tactic(auto, unfolding(crate::specs::Cmac::key1))]
fn subkey(k: &[u8; aes::EXPANDED_BYTES]) -> aes::Block
    ensures { result ≡ key1 (key_words k.now) }
{
    doubled(aes::encrypt_block(k, aes::Block::ZERO))
}

// The last block, with its subkey. Inner.
#[tactic(auto, unfolding(crate::specs::Cmac::last_block, crate::specs::Cmac::key2))]
fn last_block(k: &[u8; aes::EXPANDED_BYTES], l: &[u8]) -> aes::Block
    requires { length l.now ≤ 16 }
    ensures { result ≡ last_block (key_words k.now) l.now }
{
    let k1 = subkey(k);
    if l.len() == aes::BLOCK_BYTES {
        aes::block_at(l, 0) ^ k1
    } else {
        let b = filled(l);
        aes::block_at(&b, 0) ^ doubled(k1)
    }
}

/// The tag of m, of any length, as a block.
#[tactic(auto, unfolding(crate::specs::Cmac::mac_block))]
pub fn mac_block(k: &[u8; aes::EXPANDED_BYTES], m: &[u8]) -> aes::Block
    ensures { result ≡ mac_block (key_words k.now) m.now }
{
    let q = before_last(m.len());
    let at = aes::BLOCK_BYTES * q;
    let x = chained(k, m, q);
    let y = last_block(k, &m[at..]);
    aes::encrypt_block(k, x ^ y)
}
