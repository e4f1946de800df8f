//! An entry as fields of a fixed form, for callers outside: five numbers, the bytes of a key, and those of a value.
//! Promises upward: every entry has its fields, fields that are no entry are told from those that are, and an entry is read back from its own.
#![tactic(auto)]

ghost use Rattle.std.specs.Prelude.{◌≡◌};
ghost use Rattle.key.specs.Keys.{key_bytes};
ghost use Rattle.fields.specs.Forms.{undated, fields_of, numbers_of, value_field, entry_with, entry_from};

use entry::Entry;
use key::{KEY_BYTES, Key};
use message::{Epoch, Time};
use value::{VALUE_BYTES, Value};

/// The five numbers, and where each stands.
pub const NUMBERS: usize = 5;

const TAG: usize = 0;

const S: usize = 1;

const P: usize = 2;

const EPOCH: usize = 3;

const TIME: usize = 4;

/// What the ten entries have between them. An entry has 0, the root key or the value none in the place of what it does not have.
#[derive(Clone, Copy, Debug, PartialEq, Eq)]
pub struct Fields {
    pub tag: u8,
    pub s: u16,
    pub p: u16,
    pub epoch: Epoch,
    pub time: Time,
    pub key: Key,
    pub value: Value,
}

// The fields of an entry that has no epoch and no time.
fn undated(tag: u8, s: u16, p: u16, key: Key, value: Value) -> Fields
    ensures { result ≡ undated tag s p key value }
{
    Fields {
        tag,
        s,
        p,
        epoch: Epoch(0),
        time: Time(0),
        key,
        value,
    }
}

#[tactic(auto, unfolding(crate::specs::Forms::fields_of))]
pub fn fields_of(e: Entry) -> Fields
    ensures { result ≡ fields_of e }
{
    match e {
        Entry::AddTree { s, p, key, value } => undated(entry::ADD_TREE_TAG, s, p, key, value),
        Entry::AddDeferred {
            s,
            epoch,
            time,
            key,
            value,
        } => Fields {
            tag: entry::ADD_DEFERRED_TAG,
            s,
            p: 0,
            epoch,
            time,
            key,
            value,
        },
        Entry::EvictTree { s, p } => undated(entry::EVICT_TREE_TAG, s, p, Key::ROOT, Value::None),
        Entry::EvictDeferred { s } => undated(
            entry::EVICT_DEFERRED_TAG,
            s,
            0,
            Key::ROOT,
            Value::None,
        ),
        Entry::EvictTreeDeferred { s, p } => undated(
            entry::EVICT_TREE_DEFERRED_TAG,
            s,
            p,
            Key::ROOT,
            Value::None,
        ),
        Entry::Get { s, key, value } => undated(entry::GET_TAG, s, 0, key, value),
        Entry::Absent { p, key } => undated(entry::ABSENT_TAG, 0, p, key, Value::None),
        Entry::Put { s, key, value } => undated(entry::PUT_TAG, s, 0, key, value),
        Entry::Advance => undated(entry::ADVANCE_TAG, 0, 0, Key::ROOT, Value::None),
        Entry::Close => undated(entry::CLOSE_TAG, 0, 0, Key::ROOT, Value::None),
    }
}

/// The entry of these fields, by its tag; a field that it does not have is not looked at.
#[tactic(auto, unfolding(crate::specs::Forms::entry_with))]
pub fn entry_with(f: Fields) -> Option<Entry>
    ensures { result ≡ entry_with f }
{
    let Fields {
        tag,
        s,
        p,
        epoch,
        time,
        key,
        value,
    } = f;
    match tag {
        entry::ADD_TREE_TAG => Some(Entry::AddTree { s, p, key, value }),
        entry::ADD_DEFERRED_TAG => Some(Entry::AddDeferred {
            s,
            epoch,
            time,
            key,
            value,
        }),
        entry::EVICT_TREE_TAG => Some(Entry::EvictTree { s, p }),
        entry::EVICT_DEFERRED_TAG => Some(Entry::EvictDeferred { s }),
        entry::EVICT_TREE_DEFERRED_TAG => Some(Entry::EvictTreeDeferred { s, p }),
        entry::GET_TAG => Some(Entry::Get { s, key, value }),
        entry::ABSENT_TAG => Some(Entry::Absent { p, key }),
        entry::PUT_TAG => Some(Entry::Put { s, key, value }),
        entry::ADVANCE_TAG => Some(Entry::Advance),
        entry::CLOSE_TAG => Some(Entry::Close),
        _ => None,
    }
}

/// The entry that five numbers, the bytes of a key and those of a value are, if they are one.
#[tactic(auto, unfolding(crate::specs::Forms::entry_from))]
pub fn read_fields(
    numbers: &[u64; NUMBERS],
    key: &[u8; KEY_BYTES],
    value: &[u8; VALUE_BYTES],
) -> Option<Entry>
    ensures { result ≡ entry_from numbers.now key.now value.now }
{
    let tag = u8::try_from(numbers[TAG]).ok()?;
    let s = u16::try_from(numbers[S]).ok()?;
    let p = u16::try_from(numbers[P]).ok()?;
    let key = Key::read(key, 0)?;
    let (x, used) = value::read_value(value, 0)?;
    if !slot::zero_from(value, used) {
        return None;
    }
    entry_with(Fields {
        tag,
        s,
        p,
        epoch: Epoch(numbers[EPOCH]),
        time: Time(numbers[TIME]),
        key,
        value: x,
    })
}

pub fn numbers_of(f: Fields) -> [u64; NUMBERS]
    ensures { result ≡ numbers_of f }
{
    [
        u64::from(f.tag),
        u64::from(f.s),
        u64::from(f.p),
        f.epoch.0,
        f.time.0,
    ]
}

#[tactic(auto, using(key::proofs::Laws::key_length, words::proofs::Laws::splice_all))]
pub fn write_key(k: Key, out: &mut [u8; KEY_BYTES])
    ensures { out.new ≡ key_bytes k }
{
    k.write(out, 0);
}

/// The value, and then zeros.
#[tactic(auto, using(value::proofs::Laws::value_length_lem), unfolding(crate::specs::Forms::value_field))]
pub fn write_value(x: Value, out: &mut [u8; VALUE_BYTES])
    ensures { out.new ≡ value_field x }
{
    slot::clear(out);
    value::write_value(x, out, 0);
}
