//! The ten entries: their forms, and a reader over a lent log.
//! Promises upward: 3 or 2 or the entry with its whole length, and the body as a part of the log itself.
#![tactic(auto)]

ghost use Rattle.std.specs.Prelude.{◌≡◌, ◌+◌, ◌≤◌, ◌<◌, length, Err};
ghost use Rattle.words.specs.Numbers.{number_at};
ghost use Rattle.words.specs.Splices.{part};
ghost use Rattle.value.specs.Values.{value_at};
ghost use Rattle.entry.specs.Entries.{ends_with, add_tree_at, add_deferred_at, pair_of_slots, evict_deferred_at, record_at, absent_at, empty_at, entry_of, head_of, head_end, body_of, read_entry, read_at, reading_used, RefusesAs};

use key::Key;
use message::{Epoch, Time};
use value::Value;
use verdict::Refusal;
use words::read_number;

/// A tag byte and a two-byte length.
pub const HEAD_BYTES: usize = 3;

pub const LENGTH_AT: usize = 1;

/// The tags of the ten entries.
pub const ADD_TREE_TAG: u8 = 1;

pub const ADD_DEFERRED_TAG: u8 = 2;

pub const EVICT_TREE_TAG: u8 = 3;

pub const EVICT_DEFERRED_TAG: u8 = 4;

pub const EVICT_TREE_DEFERRED_TAG: u8 = 5;

pub const GET_TAG: u8 = 6;

pub const ABSENT_TAG: u8 = 7;

pub const PUT_TAG: u8 = 8;

pub const ADVANCE_TAG: u8 = 9;

pub const CLOSE_TAG: u8 = 10;

/// A slot's number takes two bytes, and where there are two, the second stands behind the first.
pub const ONE_SLOT: usize = 2;

pub const TWO_SLOTS: usize = 4;

/// Where the parts of entry 1 stand in its body: s, p, key, value.
pub const ADD_TREE_KEY: usize = 4;

pub const ADD_TREE_VALUE: usize = 38;

/// Where those of entry 2 stand: s, epoch, time, key, value.
pub const ADD_DEFERRED_EPOCH: usize = 2;

pub const ADD_DEFERRED_TIME: usize = 10;

pub const ADD_DEFERRED_KEY: usize = 18;

pub const ADD_DEFERRED_VALUE: usize = 52;

/// Where those of entries 6, 7 and 8 stand: a slot, a data key, and in 6 and 8 a value.
pub const DATA_KEY: usize = 2;

pub const DATA_VALUE: usize = 34;

/// s is the record's slot, p its ancestor's.
#[derive(Clone, Copy, Debug, PartialEq, Eq)]
pub enum Entry {
    AddTree {
        s: u16,
        p: u16,
        key: Key,
        value: Value,
    },
    AddDeferred {
        s: u16,
        epoch: Epoch,
        time: Time,
        key: Key,
        value: Value,
    },
    EvictTree {
        s: u16,
        p: u16,
    },
    EvictDeferred {
        s: u16,
    },
    EvictTreeDeferred {
        s: u16,
        p: u16,
    },
    Get {
        s: u16,
        key: Key,
        value: Value,
    },
    Absent {
        p: u16,
        key: Key,
    },
    Put {
        s: u16,
        key: Key,
        value: Value,
    },
    Advance,
    Close,
}

/// An entry's head: its tag and its body's length.
#[derive(Clone, Copy, Debug, PartialEq, Eq)]
pub struct Head {
    pub tag: u8,
    pub len: usize,
}

/// Why no entry is read: 3, or 2 with the bytes that the malformed entry takes.
#[derive(Clone, Copy, Debug, PartialEq, Eq)]
pub enum Unread {
    Short,
    Malformed { used: usize },
}

impl Unread {
    /// How many bytes are used.
    pub fn used(self) -> usize
        ensures { result ≡ reading_used (Err self) }
    {
        match self {
            Self::Short => 0,
            Self::Malformed { used } => used,
        }
    }
}

impl From<Unread> for Refusal {
    ghost from_gives = { RefusesAs };

    fn from(u: Unread) -> Refusal {
        match u {
            Unread::Short => Refusal::Short,
            Unread::Malformed { .. } => Refusal::Malformed,
        }
    }
}

// Inner.
fn slot_at(b: &[u8], at: usize) -> u16
    requires { at + 2 ≤ length b.now }
    ensures { result ≡ number_at 2 b.now at }
{
    read_number::<2>(b, at) as u16
}

// The value that ends a body; in its callers, so that no value is copied on the way. Inner.
#[inline(always)]
fn last_value(b: &[u8], at: usize) -> Option<Value>
    requires { at ≤ length b.now }
    ensures { result ≡ ends_with b.now at (λ x. x) (value_at b.now at) }
{
    let (value, used) = value::read_value(b, at)?;
    if at + used != b.len() {
        return None;
    }
    Some(value)
}

// 1: s, p, key, value.
#[tactic(auto, unfolding(crate::specs::Entries::add_tree_at))]
fn read_add_tree(b: &[u8]) -> Option<Entry>
    ensures { result ≡ add_tree_at b.now }
{
    if b.len() < ADD_TREE_VALUE {
        return None;
    }
    Some(Entry::AddTree {
        s: slot_at(b, 0),
        p: slot_at(b, ONE_SLOT),
        key: Key::read(b, ADD_TREE_KEY)?,
        value: last_value(b, ADD_TREE_VALUE)?,
    })
}

// 2: s, epoch, time, key, value.
#[tactic(auto, unfolding(crate::specs::Entries::add_deferred_at))]
fn read_add_deferred(b: &[u8]) -> Option<Entry>
    ensures { result ≡ add_deferred_at b.now }
{
    if b.len() < ADD_DEFERRED_VALUE {
        return None;
    }
    Some(Entry::AddDeferred {
        s: slot_at(b, 0),
        epoch: Epoch(read_number::<8>(b, ADD_DEFERRED_EPOCH)),
        time: Time(read_number::<8>(b, ADD_DEFERRED_TIME)),
        key: Key::read(b, ADD_DEFERRED_KEY)?,
        value: last_value(b, ADD_DEFERRED_VALUE)?,
    })
}

// 3 and 5: s, p.
#[tactic(auto, unfolding(crate::specs::Entries::pair_of_slots))]
fn read_pair(b: &[u8]) -> Option<(u16, u16)>
    ensures { result ≡ pair_of_slots b.now (λ s p. (s, p)) }
{
    if b.len() != TWO_SLOTS {
        return None;
    }
    Some((slot_at(b, 0), slot_at(b, ONE_SLOT)))
}

// 4: s.
#[tactic(auto, unfolding(crate::specs::Entries::evict_deferred_at))]
fn read_evict_deferred(b: &[u8]) -> Option<Entry>
    ensures { result ≡ evict_deferred_at b.now }
{
    if b.len() != ONE_SLOT {
        return None;
    }
    Some(Entry::EvictDeferred { s: slot_at(b, 0) })
}

// 6 and 8: s, 32-byte key, value.
#[tactic(auto, unfolding(crate::specs::Entries::record_at))]
fn read_record(b: &[u8]) -> Option<(u16, Key, Value)>
    ensures { result ≡ record_at b.now (λ s k x. (s, k, x)) }
{
    if b.len() < DATA_VALUE {
        return None;
    }
    let value = last_value(b, DATA_VALUE)?;
    Some((slot_at(b, 0), Key::read_data(b, DATA_KEY), value))
}

// 7: p, 32-byte key.
#[tactic(auto, unfolding(crate::specs::Entries::absent_at))]
fn read_absent(b: &[u8]) -> Option<Entry>
    ensures { result ≡ absent_at b.now }
{
    if b.len() != DATA_VALUE {
        return None;
    }
    Some(Entry::Absent {
        p: slot_at(b, 0),
        key: Key::read_data(b, DATA_KEY),
    })
}

// 9 and 10: an empty body makes e.
#[tactic(auto, unfolding(crate::specs::Entries::empty_at))]
fn read_empty(b: &[u8], e: Entry) -> Option<Entry>
    ensures { result ≡ empty_at b.now e }
{
    b.is_empty().then_some(e)
}

/// The entry that a body of that tag makes.
#[tactic(auto, unfolding(crate::specs::Entries::entry_of, crate::specs::Entries::pair_of_slots, crate::specs::Entries::record_at))]
pub fn read_body(tag: u8, b: &[u8]) -> Option<Entry>
    ensures { result ≡ entry_of tag b.now }
{
    match tag {
        ADD_TREE_TAG => read_add_tree(b),
        ADD_DEFERRED_TAG => read_add_deferred(b),
        EVICT_TREE_TAG => read_pair(b).map(|(s, p)| Entry::EvictTree { s, p }),
        EVICT_DEFERRED_TAG => read_evict_deferred(b),
        EVICT_TREE_DEFERRED_TAG => read_pair(b).map(|(s, p)| Entry::EvictTreeDeferred { s, p }),
        GET_TAG => read_record(b).map(|(s, key, value)| Entry::Get { s, key, value }),
        ABSENT_TAG => read_absent(b),
        PUT_TAG => read_record(b).map(|(s, key, value)| Entry::Put { s, key, value }),
        ADVANCE_TAG => read_empty(b, Entry::Advance),
        CLOSE_TAG => read_empty(b, Entry::Close),
        _ => None,
    }
}

/// The head of the entry at the start of a log, where its body is there too.
#[tactic(auto, unfolding(crate::specs::Entries::head_of))]
pub fn head_of(log: &[u8]) -> Option<Head>
    ensures { (result ≡ head_of log.now) × (head_end result ≤ length log.now) }
{
    if log.len() < HEAD_BYTES {
        return None;
    }
    let len = read_number::<2>(log, LENGTH_AT) as usize;
    if log.len() - HEAD_BYTES < len {
        return None;
    }
    Some(Head { tag: log[0], len })
}

// The n bytes after the head. Inner.
fn after_head(log: &[u8], n: usize) -> &[u8]
    requires { 3 + n ≤ length log.now }
    ensures { result.now ≡ part log.now 3 n }
{
    &log[HEAD_BYTES..HEAD_BYTES + n]
}

/// The body of the entry at the start of a log, a part of the log itself; an empty part where it is not whole.
#[tactic(auto, unfolding(crate::specs::Entries::body_of))]
pub fn body(log: &[u8]) -> &[u8]
    ensures { result.now ≡ body_of log.now }
{
    match head_of(log) {
        None => &log[..0],
        Some(h) => after_head(log, h.len),
    }
}

/// The entry at the start of a log, and how many bytes it takes.
#[tactic(auto, unfolding(crate::specs::Entries::read_entry))]
pub fn read(log: &[u8]) -> Result<(Entry, usize), Unread>
    ensures { (result ≡ read_entry log.now) × (reading_used result ≤ length log.now) }
{
    let h = head_of(log).ok_or(Unread::Short)?;
    let used = HEAD_BYTES + h.len;
    let e = read_body(h.tag, after_head(log, h.len)).ok_or(Unread::Malformed { used })?;
    Ok((e, used))
}

/// The entry at a place of a log: the plain form, log and place apart.
pub fn read_at(log: &[u8], at: usize) -> Result<(Entry, usize), Unread>
    ensures { result ≡ read_at log.now at }
{
    read(log.get(at..).unwrap_or(&[]))
}
