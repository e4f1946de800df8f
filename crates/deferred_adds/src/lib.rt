//! Entry 2, once its body is read: add deferred. It scans the slots' keys once (7) and works at most one tag.
//! Promises upward: verdict, state and every byte of the cache are the rules', for any state and any lent cache; the run's expanded key
//! comes with the state.
#![tactic(auto)]

ghost use Rattle.std.specs.Prelude.{◌≡◌, ◌+◌, ◌*◌, ◌≤◌, ◌<◌, length, Some};
ghost use Rattle.slot.specs.Slots.{slot_length};
ghost use Rattle.state.specs.States.{count_limit};
ghost use Rattle.rules.specs.Outcomes.{outcome, done};
ghost use Rattle.rules.specs.Adds.{named_epoch, in_time, add_named, add_into, add_deferred};
ghost use Rattle.deferred_adds.specs.Parts.{tally_of, added_to};

use cmac::Tag;
use key::Key;
use message::{Epoch, Message, Time};
use records::free_in;
use rules::Named;
use slot::{ORIGIN_DEFERRED, SLOT_BYTES, set_slot};
use state::{COUNT_LIMIT, Keyed, State, Tally};
use tree::fits;
use value::Value;
use verdict::Refusal;

// Times begin at 1.
const FIRST_TIME: u64 = 1;

// 18: the current epoch, or the open old one, always the current one less 1.
#[tactic(auto, unfolding(rules::specs::Adds::named_epoch))]
fn named_epoch(st: State, e: Epoch) -> Option<Named>
    ensures { result ≡ named_epoch st e }
{
    if e.0 == st.epoch.0 {
        return Some(Named::Current);
    }
    let old = st.old?;
    if e.0 == st.epoch.0.saturating_sub(1) {
        return Some(Named::Old(old));
    }
    None
}

// 19: the time is 1 to the clock.
fn in_time(t: Time, clock: Time) -> bool
    ensures { result ≡ in_time t clock }
{
    FIRST_TIME <= t.0 && t.0 <= clock.0
}

fn tally_of(st: State, named: Named) -> Tally
    ensures { result ≡ tally_of st named }
{
    match named {
        Named::Current => st.tally,
        Named::Old(old) => old,
    }
}

// A message more in the adds of a named epoch. Inner.
fn added_to(st: State, named: Named, g: Tag) -> State
    requires { (tally_of st named).adds < count_limit }
    ensures { result ≡ added_to st named g }
{
    match named {
        Named::Current => st.added_current(g),
        Named::Old(old) => st.added_old(old, g),
    }
}

// 19, 20, and the message goes into the adds of a named epoch. Inner.
fn add_named(
    keyed: &Keyed,
    s: usize,
    m: Message,
    named: Named,
    cache: &mut [u8],
) -> Result<State, Refusal>
    requires { (s + 1) * slot_length ≤ length cache.old }
    ensures { outcome (done result keyed.now.state) cache.new ≡ add_named s m.epoch m.time m.key m.value keyed.now.state cache.old (Some named) }
{
    let st = keyed.state;
    if !in_time(m.time, st.clock) {
        return Err(Refusal::TimeOutOfRange);
    }
    if COUNT_LIMIT <= tally_of(st, named).adds {
        return Err(Refusal::CountFull);
    }
    let next = added_to(st, named, keyed.tag_of(m));
    set_slot(cache, s, ORIGIN_DEFERRED, m.key, m.value);
    Ok(next)
}

/// 2: s, epoch, time, key, value. 4, 5, 7, 8, 18, and so on.
#[tactic(auto, unfolding(rules::specs::Adds::add_deferred, rules::specs::Adds::add_into))]
pub fn add_deferred(
    keyed: &Keyed,
    s: u16,
    e: Epoch,
    t: Time,
    k: Key,
    v: Value,
    cache: &mut [u8],
) -> Result<State, Refusal>
    ensures { outcome (done result keyed.now.state) cache.new ≡ add_deferred s e t k v keyed.now.state cache.old }
{
    let s = usize::from(s);
    if cache.len() / SLOT_BYTES <= s {
        return Err(Refusal::NoSlot);
    }
    free_in(cache, s)?;
    if cache::held(cache, k) {
        return Err(Refusal::KeyHeld);
    }
    if !fits(k, v) {
        return Err(Refusal::WrongKind);
    }
    let Some(named) = named_epoch(keyed.state, e) else {
        return Err(Refusal::EpochNotOpen);
    };
    let m = Message {
        epoch: e,
        time: t,
        key: k,
        value: v,
    };
    add_named(keyed, s, m, named, cache)
}
