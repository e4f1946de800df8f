//! Entries 6, 7 and 8, once their bodies are read: get, absent and put. Each looks at one slot, and none works a digest or a tag.
//! Promises upward: verdict, state and every byte of the cache are the rules', for any state and any lent cache; of a get and an absence
//! nothing comes but the verdict.
#![tactic(auto)]

ghost use Rattle.std.specs.Prelude.{◌≡◌, MatchResult};
ghost use Rattle.verdict.specs.Verdicts.{told};
ghost use Rattle.rules.specs.Outcomes.{outcome, done};
ghost use Rattle.rules.specs.Answers.{get, absent, put};
ghost use Rattle.answers.specs.Parts.{IsRecordIn, IsRefusedAt};

use key::Key;
use records::Record;
use slot::{SLOT_BYTES, set_slot};
use state::State;
use tree::{is_node, side_of};
use value::{Side, Value};
use verdict::Refusal;

// 4, 6: the record in slot s.
#[tactic(auto, unfolding(rules::specs::Answers::get, rules::specs::Answers::absent, rules::specs::Answers::put))]
fn record_in(s: u16, cache: &[u8]) -> Result<Record, Refusal>
    ensures { MatchResult result (λ r. IsRecordIn s cache.now r) (λ e. IsRefusedAt s cache.now e) }
{
    let i = usize::from(s);
    if cache.len() / SLOT_BYTES <= i {
        return Err(Refusal::NoSlot);
    }
    records::record_in(cache, i)
}

/// 6: s, key, value. The slot's value equals the given one.
#[tactic(auto, unfolding(key::specs::Keys::key_eq, value::specs::Values::value_eq, value::specs::Values::digest_eq))]
pub fn get(s: u16, k: Key, v: Value, cache: &[u8]) -> Result<(), Refusal>
    ensures { told result ≡ get s k v cache.now }
{
    let record = record_in(s, cache)?;
    if is_node(v) || is_node(record.value) {
        return Err(Refusal::WrongKind);
    }
    if record.key != k {
        return Err(Refusal::OtherKey);
    }
    if record.value != v {
        return Err(Refusal::ValueDiffers);
    }
    Ok(())
}

/// 7: p, key. p's side toward the key is empty, or its link's key is neither our key nor an ancestor of it.
#[tactic(auto, unfolding(key::specs::Keys::key_eq))]
pub fn absent(p: u16, k: Key, cache: &[u8]) -> Result<(), Refusal>
    ensures { told result ≡ absent p k cache.now }
{
    let parent = record_in(p, cache)?;
    let Value::Node(node) = parent.value else {
        return Err(Refusal::WrongKind);
    };
    if !parent.key.above(k) {
        return Err(Refusal::NoAncestor);
    }
    match side_of(node, parent.key.toward(k)) {
        Side::Link { key, .. } if key == k || key.above(k) => Err(Refusal::AbsenceNotShown),
        _ => Ok(()),
    }
}

/// 8: s, key, value. The value is replaced.
#[tactic(auto, unfolding(key::specs::Keys::key_eq))]
pub fn put(s: u16, k: Key, v: Value, st: State, cache: &mut [u8]) -> Result<State, Refusal>
    ensures { outcome (done result st) cache.new ≡ put s k v st cache.old }
{
    let held = record_in(s, cache)?;
    if is_node(v) || is_node(held.value) {
        return Err(Refusal::WrongKind);
    }
    if held.key != k {
        return Err(Refusal::OtherKey);
    }
    set_slot(cache, usize::from(s), held.origin, k, v);
    Ok(st)
}
