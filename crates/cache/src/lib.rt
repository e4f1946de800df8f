//! The cache as slots: whether its length and its slots are as said, and whether a key is held.
//! Promises upward: 28 and the cache's part of 1 are decided, and a slot that is written leaves every other as it was.
#![tactic(auto)]

ghost use Rattle.std.specs.Prelude.{◌≡◌, ◌+◌, ◌*◌, ◌/◌, ◌≤◌, ◌<◌, length};
ghost use Rattle.slot.specs.Slots.{slot_length, slot_at};
ghost use Rattle.cache.specs.Caches.{well_length, slot_has, held, well_record, well_at, well_cache};

use key::Key;
use slot::{SLOT_BYTES, Slot};
use value::Value;
use words::read_number;

/// The fewest slots of a cache, and the most.
pub const FEWEST_SLOTS: usize = 2;

pub const MOST_SLOTS: usize = 64;

// Where the first word of a slot's key stands in it.
const SLOT_WORD: usize = 3;

/// 28: whether the length is that of 2 to 64 slots.
#[tactic(auto, unfolding(crate::specs::Caches::well_length))]
pub fn well_length(cache: &[u8]) -> bool
    ensures { result ≡ well_length cache.now }
{
    let n = cache.len();
    (FEWEST_SLOTS * SLOT_BYTES..=MOST_SLOTS * SLOT_BYTES).contains(&n) && n % SLOT_BYTES == 0
}

#[tactic(auto, unfolding(key::specs::Keys::key_eq))]
fn has(s: Slot, k: Key) -> bool
    ensures { result ≡ slot_has s k }
{
    matches!(s, Slot::Full { key, .. } if key == k)
}

// Whether a slot's bytes hold a key. Most slots do not, and the first word of their key says so at once. Inner.
fn holds(p: &[u8], k: Key) -> bool
    requires { length p.now ≡ slot_length }
    ensures { result ≡ slot_has (slot_at p.now) k }
{
    read_number::<8>(p, SLOT_WORD) == k.w0 && has(slot::read_slot(p), k)
}

/// Whether a slot of the cache holds a key.
pub fn held(cache: &[u8], k: Key) -> bool
    ensures { result ≡ held cache.now k }
{
    cache.chunks_exact(SLOT_BYTES).any(|p| holds(p, k))
}

// A record in slot i: its kind fits its key, no slot before holds the key, and slot 0 is the root's. Inner.
#[tactic(auto, unfolding(crate::specs::Caches::well_record, key::specs::Keys::key_eq))]
fn well_record(cache: &[u8], i: usize, o: u8, k: Key, v: Value) -> bool
    requires { (i + 1) * slot_length ≤ length cache.now }
    ensures { result ≡ well_record cache.now i o k v }
{
    tree::fits(k, v)
        && !held(&cache[..i * SLOT_BYTES], k)
        && (i != 0 || o == slot::ORIGIN_TREE && k == Key::ROOT)
}

// Inner.
#[tactic(auto, unfolding(crate::specs::Caches::well_at))]
fn well_at(cache: &[u8], i: usize) -> bool
    requires { (i + 1) * slot_length ≤ length cache.now }
    ensures { result ≡ well_at cache.now i }
{
    match slot::slot_of(cache, i) {
        Slot::Free => 0 < i,
        Slot::Bad => false,
        Slot::Full { origin, key, value } => well_record(cache, i, origin, key, value),
    }
}

/// The cache's part of 1: whether every slot is as said, slot 0 the root's, no key twice.
pub fn well_cache(cache: &[u8]) -> bool
    ensures { result ≡ well_cache cache.now }
{
    (0..cache.len() / SLOT_BYTES).all(|i| well_at(cache, i))
}
