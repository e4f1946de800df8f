//! The state as 129 bytes of a fixed layout, for callers outside.
//! Promises upward: bytes that are no state are told from those that are, and a state is written in one way.
#![tactic(auto)]

ghost use Rattle.std.specs.Prelude.{◌≡◌, ◌+◌, ◌≤◌, length};
ghost use Rattle.words.specs.Numbers.{two_words};
ghost use Rattle.words.specs.Splices.{splice};
ghost use Rattle.flat.specs.Flats.{state_length, tally_bytes, old_bytes, front_bytes, state_bytes, tag_at, tally_at, old_at, state_at, TagFits, TallyFits, OldFits, StateFits};

use cmac::Tag;
use hash::SetKey;
use message::{Epoch, Time};
use state::{State, Tally};
use words::{put_number, read_number};

pub const STATE_BYTES: usize = 129;

// Where each part begins.
const CLOCK: usize = 16;

const EPOCH: usize = 24;

const TALLY: usize = 32;

const OLD: usize = 80;

const OLD_TALLY: usize = 81;

const TALLY_BYTES: usize = 48;

// Two words, as a tag and the set key have them. Inner.
fn put_two(s: &mut [u8], at: usize, a: u64, b: u64)
    requires { at + 16 ≤ length s.old }
    ensures { s.new ≡ splice s.old at (two_words a b) }
{
    put_number::<8>(s, at, a);
    put_number::<8>(s, at + 8, b);
}

// Inner.
fn put_tally(s: &mut [u8], at: usize, t: Tally)
    requires { at + 48 ≤ length s.old }
    ensures { s.new ≡ splice s.old at (tally_bytes t) }
{
    put_number::<8>(s, at, t.adds);
    put_number::<8>(s, at + 8, t.evicts);
    put_two(s, at + 16, t.addsum.t0, t.addsum.t1);
    put_two(s, at + 32, t.evictsum.t0, t.evictsum.t1);
}

// Inner.
fn put_old(s: &mut [u8], at: usize, o: Option<Tally>)
    requires { at + 49 ≤ length s.old }
    ensures { s.new ≡ splice s.old at (old_bytes o) }
{
    match o {
        None => {
            words::put_u8(s, at, 0);
            let b = at + 1;
            slot::clear(&mut s[b..b + TALLY_BYTES]);
        }
        Some(t) => {
            words::put_u8(s, at, 1);
            put_tally(s, at + 1, t);
        }
    }
}

// Inner.
fn put_front(s: &mut [u8], st: State)
    requires { 32 ≤ length s.old }
    ensures { s.new ≡ splice s.old 0 (front_bytes st) }
{
    put_two(s, 0, st.set.k0, st.set.k1);
    put_two(s, CLOCK, st.clock.0, st.epoch.0);
}

/// All of the 129 bytes. Inner.
pub fn write_state(s: &mut [u8], st: State)
    requires { length s.old ≡ state_length }
    ensures { s.new ≡ state_bytes st }
{
    put_front(s, st);
    put_tally(s, TALLY, st.tally);
    put_old(s, OLD, st.old);
}

// Inner.
#[tactic(auto, unfolding(crate::specs::Flats::tag_at))]
fn tag_at(s: &[u8], at: usize) -> Tag
    requires { at + 16 ≤ length s.now }
    ensures { result ≡ tag_at s.now at }
{
    Tag {
        t0: read_number::<8>(s, at),
        t1: read_number::<8>(s, at + 8),
    }
}

// Inner.
#[tactic(auto, unfolding(crate::specs::Flats::tally_at))]
fn tally_at(s: &[u8], at: usize) -> Tally
    requires { at + 48 ≤ length s.now }
    ensures { result ≡ tally_at s.now at }
{
    Tally {
        adds: read_number::<8>(s, at),
        evicts: read_number::<8>(s, at + 8),
        addsum: tag_at(s, at + 16),
        evictsum: tag_at(s, at + 32),
    }
}

// Inner.
#[tactic(auto, unfolding(crate::specs::Flats::old_at))]
fn old_at(s: &[u8]) -> Option<Option<Tally>>
    requires { length s.now ≡ state_length }
    ensures { result ≡ old_at s.now }
{
    match s[OLD] {
        0 if slot::zero_from(s, OLD_TALLY) => Some(None),
        1 => Some(Some(tally_at(s, OLD_TALLY))),
        _ => None,
    }
}

/// The state that 129 bytes are, if they are one.
#[tactic(auto, unfolding(crate::specs::Flats::state_at))]
pub fn read_state(s: &[u8]) -> Option<State>
    ensures { result ≡ state_at s.now }
{
    if s.len() != STATE_BYTES {
        return None;
    }
    let old = old_at(s)?;
    Some(State {
        set: SetKey {
            k0: read_number::<8>(s, 0),
            k1: read_number::<8>(s, 8),
        },
        clock: Time(read_number::<8>(s, CLOCK)),
        epoch: Epoch(read_number::<8>(s, EPOCH)),
        tally: tally_at(s, TALLY),
        old,
    })
}

// ---- every number fits its field. Nothing runs here: each contract says of any state of the code what the laws of the round trip ask of one
// (specs/Flats.antt)

fn tag_fits(g: Tag)
    ensures { TagFits g }
{}

fn tally_fits(t: Tally)
    ensures { TallyFits t }
{
    tag_fits(t.addsum);
    tag_fits(t.evictsum);
}

fn old_fits(o: Option<Tally>)
    ensures { OldFits o }
{
    match o {
        None => {}
        Some(t) => tally_fits(t),
    }
}

pub fn state_fits(st: State)
    ensures { StateFits st }
{
    tally_fits(st.tally);
    old_fits(st.old);
}
