//! A slot of the cache: 192 bytes, read, and written as a lent part of the cache.
//! Promises upward: a slot that is written is read back, and no byte outside the slot is touched.
#![tactic(auto)]

ghost use Rattle.std.specs.Prelude.{◌≡◌, ◌+◌, ◌*◌, ◌-◌, ◌≤◌, length, drop, fold, bit_or};
ghost use Rattle.words.specs.Numbers.{zeros};
ghost use Rattle.words.specs.Splices.{splice, part};
ghost use Rattle.slot.specs.Slots.{slot_length, slot_bytes, all_zero, slot_at};

use key::Key;
use value::Value;
use words::put_u8;

pub const SLOT_BYTES: usize = 192;

/// Where a record came from: the tree, or a deferred add.
pub const ORIGIN_TREE: u8 = 1;

pub const ORIGIN_DEFERRED: u8 = 2;

// The first byte of a free slot.
const ORIGIN_FREE: u8 = 0;

// Where a slot's key and its value stand in it.
const SLOT_KEY: usize = 1;

const SLOT_VALUE: usize = 35;

/// A slot: free, or a record and where it came from (1 the tree, 2 deferred), or bytes that are no slot.
#[derive(Clone, Copy, Debug, PartialEq, Eq)]
pub enum Slot {
    Free,
    Full { origin: u8, key: Key, value: Value },
    Bad,
}

#[tactic(auto, unfolding(words::specs::Numbers::zeros))]
pub fn clear(p: &mut [u8])
    ensures { p.new ≡ zeros (length p.old) }
{
    p.fill(0);
}

// The bits that are set in any of the bytes. With no way out in between, the compiler takes many bytes at once.
fn set_bits(s: &[u8]) -> u8
    ensures { result ≡ fold bit_or 0 s.now }
{
    s.iter().fold(0, |bits, x| bits | *x)
}

/// Whether every byte from a place on is zero: a slot's tail has up to 190 bytes. Inner.
#[tactic(auto, using(crate::proofs::Laws::none_set, words::proofs::Laws::part_rest))]
pub fn zero_from(s: &[u8], at: usize) -> bool
    requires { at ≤ length s.now }
    ensures { result ≡ all_zero (drop at s.now) }
{
    set_bits(&s[at..]) == 0
}

/// The slot writer: all of the 192 bytes lent to it. Inner.
#[tactic(auto, using(value::proofs::Laws::value_length_lem))]
pub fn write_slot(p: &mut [u8], origin: u8, k: Key, v: Value)
    requires { length p.old ≡ slot_length }
    ensures { p.new ≡ slot_bytes origin k v }
{
    clear(p);
    put_u8(p, 0, origin);
    k.write(p, SLOT_KEY);
    value::write_value(v, p, SLOT_VALUE);
}

/// Slot i of a cache is written, and no other byte of it. Inner.
#[tactic(auto, using(crate::proofs::Laws::slot_length_lem, words::proofs::Laws::back_as))]
pub fn set_slot(cache: &mut [u8], i: usize, origin: u8, k: Key, v: Value)
    requires { (i + 1) * slot_length ≤ length cache.old }
    ensures { cache.new ≡ splice cache.old (i * slot_length) (slot_bytes origin k v) }
{
    let at = i * SLOT_BYTES;
    write_slot(&mut cache[at..at + SLOT_BYTES], origin, k, v);
}

/// Slot i of a cache becomes free. Inner.
#[tactic(auto, using(words::proofs::Laws::zeros_length, words::proofs::Laws::back_as, words::proofs::Laws::part_length))]
pub fn free_slot(cache: &mut [u8], i: usize)
    requires { (i + 1) * slot_length ≤ length cache.old }
    ensures { cache.new ≡ splice cache.old (i * slot_length) (zeros slot_length) }
{
    let at = i * SLOT_BYTES;
    clear(&mut cache[at..at + SLOT_BYTES]);
}

/// What 192 bytes hold. Inner.
#[tactic(auto, unfolding(crate::specs::Slots::slot_at))]
pub fn read_slot(p: &[u8]) -> Slot
    requires { length p.now ≡ slot_length }
    ensures { result ≡ slot_at p.now }
{
    let origin = p[0];
    if origin == ORIGIN_FREE {
        return if zero_from(p, 0) {
            Slot::Free
        } else {
            Slot::Bad
        };
    }
    if ORIGIN_DEFERRED < origin {
        return Slot::Bad;
    }
    let Some(key) = Key::read(p, SLOT_KEY) else {
        return Slot::Bad;
    };
    let Some((value, used)) = value::read_value(p, SLOT_VALUE) else {
        return Slot::Bad;
    };
    if !zero_from(p, SLOT_VALUE + used) {
        return Slot::Bad;
    }
    Slot::Full { origin, key, value }
}

/// What slot i of a cache holds. Inner.
pub fn slot_of(cache: &[u8], i: usize) -> Slot
    requires { (i + 1) * slot_length ≤ length cache.now }
    ensures { result ≡ slot_at (part cache.now (i * slot_length) slot_length) }
{
    let at = i * SLOT_BYTES;
    read_slot(&cache[at..at + SLOT_BYTES])
}
