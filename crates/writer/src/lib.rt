//! The writer of entries, to a lent buffer.
//! Promises upward: what is written is read back whatever follows it, and what is read is written as the same bytes.
#![tactic(auto)]

ghost use Rattle.std.specs.Prelude.{◌≡◌, ◌++◌, ◌+◌, ◌≤◌, ◌<◌, ◌^◌, length};
ghost use Rattle.words.specs.Numbers.{bytes_of};
ghost use Rattle.words.specs.Splices.{splice};
ghost use Rattle.key.specs.Keys.{key_bytes, data_bytes};
ghost use Rattle.value.specs.Values.{value_bytes};
ghost use Rattle.entry.specs.Entries.{entry_tag, entry_body, entry_bytes, well_entry};
ghost use Rattle.writer.specs.Writings.{writing, written, write_entry, EntryFits};

use entry::Entry;
use key::Key;
use message::{Epoch, Time};
use value::{Value, value_length, well_value, write_value};
use verdict::Refusal;
use words::{put_number, put_u8};

// Whether the bytes would be read back.
#[tactic(auto, unfolding(entry::specs::Entries::well_entry))]
fn well_entry(e: Entry) -> bool
    ensures { result ≡ well_entry e }
{
    match e {
        Entry::AddTree { key, value, .. } | Entry::AddDeferred { key, value, .. } => {
            key.well() && well_value(value)
        }
        Entry::Get { key, value, .. } | Entry::Put { key, value, .. } => {
            key.is_data() && well_value(value)
        }
        Entry::Absent { key, .. } => key.is_data(),
        Entry::EvictTree { .. }
        | Entry::EvictDeferred { .. }
        | Entry::EvictTreeDeferred { .. }
        | Entry::Advance
        | Entry::Close => true,
    }
}

// How many bytes the body takes.
#[tactic(auto, using(crate::proofs::Laws::body_length_lem))]
fn body_length(e: Entry) -> usize
    ensures { (result ≡ length (entry_body e)) × (result < 2 ^ 16) }
{
    match e {
        Entry::AddTree { value, .. } => entry::ADD_TREE_VALUE + value_length(value),
        Entry::AddDeferred { value, .. } => entry::ADD_DEFERRED_VALUE + value_length(value),
        Entry::EvictTree { .. } | Entry::EvictTreeDeferred { .. } => entry::TWO_SLOTS,
        Entry::EvictDeferred { .. } => entry::ONE_SLOT,
        Entry::Get { value, .. } | Entry::Put { value, .. } => {
            entry::DATA_VALUE + value_length(value)
        }
        Entry::Absent { .. } => entry::DATA_VALUE,
        Entry::Advance | Entry::Close => 0,
    }
}

// ---- the bytes of each body

// 1: s, p, key, value. Inner.
fn write_add_tree(s: u16, p: u16, k: Key, x: Value, out: &mut [u8], at: usize)
    requires { at + (38 + length (value_bytes x)) ≤ length out.old }
    ensures { out.new ≡ splice out.old at (bytes_of 2 s ++ (bytes_of 2 p ++ (key_bytes k ++ value_bytes x))) }
{
    put_number::<2>(out, at, u64::from(s));
    put_number::<2>(out, at + entry::ONE_SLOT, u64::from(p));
    k.write(out, at + entry::ADD_TREE_KEY);
    write_value(x, out, at + entry::ADD_TREE_VALUE);
}

// 2: s, epoch, time, key, value. Inner.
fn write_add_deferred(s: u16, epoch: Epoch, time: Time, k: Key, x: Value, out: &mut [u8], at: usize)
    requires { at + (52 + length (value_bytes x)) ≤ length out.old }
    ensures { out.new ≡ splice out.old at (bytes_of 2 s ++ (bytes_of 8 epoch.0 ++ (bytes_of 8 time.0 ++ (key_bytes k ++ value_bytes x)))) }
{
    put_number::<2>(out, at, u64::from(s));
    put_number::<8>(out, at + entry::ADD_DEFERRED_EPOCH, epoch.0);
    put_number::<8>(out, at + entry::ADD_DEFERRED_TIME, time.0);
    k.write(out, at + entry::ADD_DEFERRED_KEY);
    write_value(x, out, at + entry::ADD_DEFERRED_VALUE);
}

// 3 and 5: s, p. Inner.
fn write_slots(s: u16, p: u16, out: &mut [u8], at: usize)
    requires { at + 4 ≤ length out.old }
    ensures { out.new ≡ splice out.old at (bytes_of 2 s ++ bytes_of 2 p) }
{
    put_number::<2>(out, at, u64::from(s));
    put_number::<2>(out, at + entry::ONE_SLOT, u64::from(p));
}

// 6 and 8: s, 32-byte key, value. Inner.
fn write_record(s: u16, k: Key, x: Value, out: &mut [u8], at: usize)
    requires { at + (34 + length (value_bytes x)) ≤ length out.old }
    ensures { out.new ≡ splice out.old at (bytes_of 2 s ++ (data_bytes k ++ value_bytes x)) }
{
    put_number::<2>(out, at, u64::from(s));
    k.write_data(out, at + entry::DATA_KEY);
    write_value(x, out, at + entry::DATA_VALUE);
}

// 7: p, 32-byte key. Inner.
fn write_absent(p: u16, k: Key, out: &mut [u8], at: usize)
    requires { at + 34 ≤ length out.old }
    ensures { out.new ≡ splice out.old at (bytes_of 2 p ++ data_bytes k) }
{
    put_number::<2>(out, at, u64::from(p));
    k.write_data(out, at + entry::DATA_KEY);
}

// The body of any entry; 9 and 10 have none. Inner.
#[tactic(auto, using(crate::proofs::Laws::body_length_lem, words::proofs::Laws::splice_none), unfolding(entry::specs::Entries::entry_body))]
fn write_body(e: Entry, out: &mut [u8], at: usize)
    requires { at + length (entry_body e) ≤ length out.old }
    ensures { out.new ≡ splice out.old at (entry_body e) }
{
    match e {
        Entry::AddTree { s, p, key, value } => write_add_tree(s, p, key, value, out, at),
        Entry::AddDeferred {
            s,
            epoch,
            time,
            key,
            value,
        } => write_add_deferred(s, epoch, time, key, value, out, at),
        Entry::EvictTree { s, p } | Entry::EvictTreeDeferred { s, p } => {
            write_slots(s, p, out, at)
        }
        Entry::EvictDeferred { s } => put_number::<2>(out, at, u64::from(s)),
        Entry::Get { s, key, value } | Entry::Put { s, key, value } => {
            write_record(s, key, value, out, at)
        }
        Entry::Absent { p, key } => write_absent(p, key, out, at),
        Entry::Advance | Entry::Close => {}
    }
}

#[tactic(auto, unfolding(entry::specs::Entries::entry_tag))]
fn tag_of(e: Entry) -> u8
    ensures { result ≡ entry_tag e }
{
    match e {
        Entry::AddTree { .. } => entry::ADD_TREE_TAG,
        Entry::AddDeferred { .. } => entry::ADD_DEFERRED_TAG,
        Entry::EvictTree { .. } => entry::EVICT_TREE_TAG,
        Entry::EvictDeferred { .. } => entry::EVICT_DEFERRED_TAG,
        Entry::EvictTreeDeferred { .. } => entry::EVICT_TREE_DEFERRED_TAG,
        Entry::Get { .. } => entry::GET_TAG,
        Entry::Absent { .. } => entry::ABSENT_TAG,
        Entry::Put { .. } => entry::PUT_TAG,
        Entry::Advance => entry::ADVANCE_TAG,
        Entry::Close => entry::CLOSE_TAG,
    }
}

// Head and body at the buffer's start; n is the body's length. Inner.
fn write_whole(e: Entry, n: usize, out: &mut [u8])
    requires { (n ≡ length (entry_body e)) × ((n < 2 ^ 16) × (3 + n ≤ length out.old)) }
    ensures { out.new ≡ splice out.old 0 (entry_bytes e) }
{
    put_u8(out, 0, tag_of(e));
    put_number::<2>(out, entry::LENGTH_AT, n as u64);
    write_body(e, out, entry::HEAD_BYTES);
}

/// Writes an entry at the buffer's start, and says how many bytes it takes. Refuses 2 where its bytes would not be read back, then 27; a
/// refusal touches nothing.
#[tactic(auto, using(crate::proofs::Laws::write_malformed, crate::proofs::Laws::write_no_room, crate::proofs::Laws::write_done))]
pub fn write(e: Entry, out: &mut [u8]) -> Result<usize, Refusal>
    ensures { writing (written result) out.new ≡ write_entry e out.old }
{
    if !well_entry(e) {
        return Err(Refusal::Malformed);
    }
    let n = body_length(e);
    let used = entry::HEAD_BYTES + n;
    if out.len() < used {
        return Err(Refusal::NoRoom);
    }
    write_whole(e, n, out);
    Ok(used)
}

/// Every number of an entry fits its field. Nothing runs here: the contract says of any entry of the code what the laws of the round trip
/// ask of one (specs/Writings.antt).
pub fn entry_fits(e: Entry)
    ensures { EntryFits e }
{
    match e {
        Entry::AddTree { value, .. }
        | Entry::AddDeferred { value, .. }
        | Entry::Get { value, .. }
        | Entry::Put { value, .. } => match value {
            Value::None => {}
            Value::Fingerprint(_) => {}
            Value::Node(_) => {}
        },
        Entry::EvictTree { .. } => {}
        Entry::EvictDeferred { .. } => {}
        Entry::EvictTreeDeferred { .. } => {}
        Entry::Absent { .. } => {}
        Entry::Advance | Entry::Close => {}
    }
}
