//! AES-CMAC (RFC 4493): the tag of a message, and sums of tags.
//! The tag call is public and refuses long messages; `mac` serves the crates above on lent buffers.
//! Promises upward: the tag is the standard's for a message of any length, and sums of tags are their xor.
#![tactic(auto)]

ghost use Rattle.std.specs.Prelude.{◌≡◌};
ghost use Rattle.aes.specs.Aes.{block_bytes};
ghost use Rattle.cmac.specs.Cmac.{cmac};
ghost use Rattle.cmac.specs.Tags.{tag_words, tag_xor, tag_with, tag_of, tag_answer};

use std::ops::BitXor;
use verdict::Refusal;

/// A tag, or a sum of tags: sixteen bytes as two words, high byte first.
#[derive(Clone, Copy, Debug, PartialEq, Eq)]
pub struct Tag {
    pub t0: u64,
    pub t1: u64,
}

impl Tag {
    /// The sum of no tags.
    pub const ZERO: Self = Self { t0: 0, t1: 0 };
}

// The sum of two.
impl BitXor for Tag {
    type Output = Self;

    ghost bitxor_gives = { λ a b r. r ≡ tag_xor a b };

    fn bitxor(self, other: Self) -> Self {
        Self {
            t0: self.t0 ^ other.t0,
            t1: self.t1 ^ other.t1,
        }
    }
}

// A block as a tag.
impl From<aes::Block> for Tag {
    ghost from_gives = { λ s t. t ≡ tag_words (block_bytes s) };

    fn from(s: aes::Block) -> Self {
        Self {
            t0: words::joined(s.w0, s.w1),
            t1: words::joined(s.w2, s.w3),
        }
    }
}

/// The tag of m, of any length, as words.
#[tactic(auto, unfolding(mac::specs::Cmac::cmac))]
pub fn mac(key: &aes::Expanded, m: &[u8]) -> Tag
    ensures { result ≡ tag_words (cmac key.now.bytes m.now) }
{
    Tag::from(mac::mac_block(&key.bytes, m))
}

/// The tag call under an expanded key that is lent.
#[tactic(auto, unfolding(crate::specs::Tags::tag_with, mac::specs::Cmac::cmac))]
pub fn tag_under(k: &[u8; aes::EXPANDED_BYTES], m: &[u8]) -> Result<[u8; aes::BLOCK_BYTES], Refusal>
    ensures { tag_answer result ≡ tag_with k.now m.now }
{
    if verdict::LONGEST < m.len() {
        return Err(Refusal::TooLong);
    }
    Ok(aes::block_bytes(mac::mac_block(k, m)))
}

/// The tag call under a set key.
#[tactic(auto, unfolding(crate::specs::Tags::tag_of))]
pub fn tag_of(key: &[u8; aes::KEY_BYTES], m: &[u8]) -> Result<[u8; aes::BLOCK_BYTES], Refusal>
    ensures { tag_answer result ≡ tag_of key.now m.now }
{
    tag_under(&aes::expand(key).bytes, m)
}
