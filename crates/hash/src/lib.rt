//! The digest of a value and the tag of a message, each worked from bytes in a buffer of its own; and the set key.
//! Promises upward: they are the standards' over the forms' bytes, and nothing above looks inside.
#![tactic(auto)]

ghost use Rattle.std.specs.Prelude.{◌≡◌};
ghost use Rattle.aes.specs.Aes.{expansion};
ghost use Rattle.cmac.specs.Cmac.{cmac};
ghost use Rattle.cmac.specs.Tags.{tag_words};
ghost use Rattle.message.specs.Messages.{message_bytes};
ghost use Rattle.hash.specs.Hashes.{digest_of, set_bytes, set_key};

use cmac::Tag;
use message::Message;
use value::{Digest, Value};
use words::{put_number, read_number};

/// The set key: 16 bytes as two words.
#[derive(Clone, Copy)]
pub struct SetKey {
    pub k0: u64,
    pub k1: u64,
}

pub const SET_KEY_BYTES: usize = 16;

// Where the set key's second word stands in its bytes.
const SECOND_WORD: usize = 8;

/// The digest of a value: eight words are four, and no byte of it is written.
pub fn digest_of(v: Value) -> Digest
    ensures { result ≡ digest_of v }
{
    let mut b = [0u8; value::VALUE_BYTES];
    let n = value::write_value(v, &mut b, 0);
    sha256::hash_words(sha256::hash_of(&b[..n])).into()
}

/// The set key that 16 bytes make.
#[tactic(auto, unfolding(crate::specs::Hashes::set_key))]
pub fn set_key(b: &[u8; SET_KEY_BYTES]) -> SetKey
    ensures { result ≡ set_key b.now }
{
    SetKey {
        k0: read_number::<8>(b, 0),
        k1: read_number::<8>(b, SECOND_WORD),
    }
}

/// The set key's 16 bytes.
pub fn set_bytes(k: SetKey) -> [u8; SET_KEY_BYTES]
    ensures { result ≡ set_bytes k }
{
    let mut b = [0u8; SET_KEY_BYTES];
    put_number::<8>(&mut b, 0, k.k0);
    put_number::<8>(&mut b, SECOND_WORD, k.k1);
    b
}

/// The expanded key, made once for a run.
pub fn expanded(k: SetKey) -> aes::Expanded
    ensures { result.bytes ≡ expansion (set_bytes k) }
{
    aes::expand(&set_bytes(k))
}

/// The tag of a message under an expanded key.
pub fn tag_of(x: &aes::Expanded, m: Message) -> Tag
    ensures { result ≡ tag_words (cmac x.now.bytes (message_bytes m)) }
{
    let mut b = [0u8; message::MESSAGE_BYTES];
    let n = message::write_message(m, &mut b);
    cmac::mac(x, &b[..n])
}
