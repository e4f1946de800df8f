//! Entry 1, once its body is read: add from tree. It scans the slots' keys once (7) and works at most one digest.
//! Promises upward: verdict, state and every byte of the cache are the rules', for any state and any lent cache. The functions inside answer
//! with the verdict alone: the entry leaves every state as it was.
#![tactic(auto)]

ghost use Rattle.std.specs.Prelude.{◌≡◌, ◌+◌, ◌*◌, ◌≤◌, length};
ghost use Rattle.verdict.specs.Verdicts.{told};
ghost use Rattle.slot.specs.Slots.{slot_length};
ghost use Rattle.state.specs.declared.State.{State};
ghost use Rattle.rules.specs.Outcomes.{outcome, gives, done};
ghost use Rattle.adds.specs.Parts.{add_same, add_first};
ghost use Rattle.rules.specs.Adds.{linked, add_link, add_under, add_tree};

use key::Key;
use records::{Parent, free_in, record_in};
use slot::{ORIGIN_TREE, SLOT_BYTES, set_slot};
use state::State;
use tree::{bare_node, fits, is_first, with_side};
use value::{Digest, Side, Value};
use verdict::Refusal;

// The record to be added: the slot that it goes into, its key, and the value given.
#[derive(Clone, Copy)]
struct Record {
    slot: usize,
    key: Key,
    value: Value,
}

impl Record {
    // Where p's side was empty or named a key below ours: the new link in p's slot, the record in its own. Inner.
    #[tactic(auto, unfolding(rules::specs::Adds::linked))]
    fn set_link(self, at: Parent, cache: &mut [u8])
        requires { ((self.slot + 1) * slot_length ≤ length cache.old) × ((at.slot + 1) * slot_length ≤ length cache.old) }
        ensures { cache.new ≡ linked self.slot at.slot at.origin at.key at.node at.right self.key self.value cache.old }
    {
        let link = Side::Link {
            key: self.key,
            digest: hash::digest_of(self.value),
            mark: false,
        };
        at.set_side(link, cache);
        set_slot(cache, self.slot, ORIGIN_TREE, self.key, self.value);
    }

    // 15: the value given must be first; stored is the value as it goes into the slot. Inner.
    fn add_first(self, at: Parent, stored: Value, cache: &mut [u8]) -> Result<(), Refusal>
        requires { ((self.slot + 1) * slot_length ≤ length cache.old) × ((at.slot + 1) * slot_length ≤ length cache.old) }
        ensures { (st : State) → outcome (gives (told result) st) cache.new ≡ add_first self.slot at.slot at.origin at.key at.node at.right self.key self.value stored st cache.old }
    {
        if !is_first(self.value) {
            return Err(Refusal::NotFirst);
        }
        let record = Record {
            value: stored,
            ..self
        };
        record.set_link(at, cache);
        Ok(())
    }

    // 13, 14: p's link names our key. Inner.
    #[tactic(auto, unfolding(value::specs::Values::digest_eq))]
    fn add_same(self, digest: Digest, mark: bool, cache: &mut [u8]) -> Result<(), Refusal>
        requires { (self.slot + 1) * slot_length ≤ length cache.old }
        ensures { (st : State) → outcome (gives (told result) st) cache.new ≡ add_same self.slot self.key self.value digest mark st cache.old }
    {
        if mark {
            return Err(Refusal::MarkedDeferred);
        }
        if digest != hash::digest_of(self.value) {
            return Err(Refusal::DigestDiffers);
        }
        set_slot(cache, self.slot, ORIGIN_TREE, self.key, self.value);
        Ok(())
    }

    // 12 to 15: by p's link toward the key. Inner.
    #[tactic(auto, unfolding(rules::specs::Adds::add_link, key::specs::Keys::key_eq))]
    fn add_link(self, at: Parent, cache: &mut [u8]) -> Result<(), Refusal>
        requires { ((self.slot + 1) * slot_length ≤ length cache.old) × ((at.slot + 1) * slot_length ≤ length cache.old) }
        ensures { (st : State) → outcome (gives (told result) st) cache.new ≡ add_link self.slot at.slot at.origin at.key at.node at.right self.key self.value st cache.old }
    {
        let side = at.side();
        match side {
            Side::Empty => self.add_first(at, self.value, cache),
            Side::Link { key, digest, mark } => {
                if key == self.key {
                    return self.add_same(digest, mark, cache);
                }
                if !self.key.above(key) {
                    return Err(Refusal::OtherBranch);
                }
                let between = with_side(bare_node(), self.key.toward(key), side);
                self.add_first(at, Value::Node(between), cache)
            }
        }
    }

    // 6 of p, 7, 8, 10. Inner.
    #[tactic(auto, unfolding(rules::specs::Adds::add_under, rules::specs::Adds::add_node))]
    fn add_under(self, p: usize, cache: &mut [u8]) -> Result<(), Refusal>
        requires { ((self.slot + 1) * slot_length ≤ length cache.old) × ((p + 1) * slot_length ≤ length cache.old) }
        ensures { (st : State) → outcome (gives (told result) st) cache.new ≡ add_under self.slot p self.key self.value st cache.old }
    {
        let parent = record_in(cache, p)?;
        if cache::held(cache, self.key) {
            return Err(Refusal::KeyHeld);
        }
        if !fits(self.key, self.value) {
            return Err(Refusal::WrongKind);
        }
        let Value::Node(node) = parent.value else {
            return Err(Refusal::WrongKind);
        };
        if !parent.key.above(self.key) {
            return Err(Refusal::NoAncestor);
        }
        let at = Parent {
            slot: p,
            origin: parent.origin,
            key: parent.key,
            node,
            right: parent.key.toward(self.key),
        };
        self.add_link(at, cache)
    }
}

/// 1: s, p, key, value. 4 of s and of p, 5, and so on.
#[tactic(auto, unfolding(rules::specs::Adds::add_tree))]
pub fn add_tree(
    s: u16,
    p: u16,
    k: Key,
    v: Value,
    st: State,
    cache: &mut [u8],
) -> Result<State, Refusal>
    ensures { outcome (done result st) cache.new ≡ add_tree s p k v st cache.old }
{
    let count = cache.len() / SLOT_BYTES;
    let slot = usize::from(s);
    let p = usize::from(p);
    if count <= slot || count <= p {
        return Err(Refusal::NoSlot);
    }
    free_in(cache, slot)?;
    let record = Record {
        slot,
        key: k,
        value: v,
    };
    record.add_under(p, cache)?;
    Ok(st)
}
