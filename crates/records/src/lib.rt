//! Records in their slots: what the entries' crates share.
//! Promises upward: what is found in a slot is what stands there, and a node's side is changed in its own slot alone.
#![tactic(auto)]

ghost use Rattle.std.specs.Prelude.{◌≡◌, ◌+◌, ◌*◌, ◌≤◌, length, MatchResult};
ghost use Rattle.value.specs.Values.{side_of, with_side};
ghost use Rattle.value.specs.declared.Value.TheVariants.{Node};
ghost use Rattle.slot.specs.Slots.{slot_length};
ghost use Rattle.slot.specs.declared.Slot.TheVariants.{Free, Full};
ghost use Rattle.cache.specs.Caches.{slot_in, put_slot};
ghost use Rattle.records.specs.Records.{IsNoRecord, IsNotFree};

use key::Key;
use slot::{Slot, set_slot, slot_of};
use value::{Side, Value};
use verdict::Refusal;

/// The root's slot.
pub const ROOT_SLOT: usize = 0;

/// The node in slot p of an entry 1, 3 or 5, and the side of it that the entry's key lies on.
#[derive(Clone, Copy)]
pub struct Parent {
    pub slot: usize,
    pub origin: u8,
    pub key: Key,
    pub node: value::Node,
    pub right: bool,
}

impl Parent {
    /// What stands on that side.
    pub fn side(self) -> Side
        ensures { result ≡ side_of self.node self.right }
    {
        tree::side_of(self.node, self.right)
    }

    /// The node with another link on that side, in its slot. Inner.
    pub fn set_side(self, link: Side, cache: &mut [u8])
        requires { (self.slot + 1) * slot_length ≤ length cache.old }
        ensures { cache.new ≡ put_slot cache.old self.slot self.origin self.key (Node (with_side self.node self.right link)) }
    {
        let node = tree::with_side(self.node, self.right, link);
        set_slot(cache, self.slot, self.origin, self.key, Value::Node(node));
    }
}

/// A record of the cache: where it came from, its key and its value.
#[derive(Clone, Copy, Debug, PartialEq, Eq)]
pub struct Record {
    pub origin: u8,
    pub key: Key,
    pub value: Value,
}

/// 6: the record in slot i. Inner.
pub fn record_in(cache: &[u8], i: usize) -> Result<Record, Refusal>
    requires { (i + 1) * slot_length ≤ length cache.now }
    ensures { MatchResult result (λ r. slot_in cache.now i ≡ Full r.origin r.key r.value) (λ e. IsNoRecord (slot_in cache.now i) e) }
{
    match slot_of(cache, i) {
        Slot::Free => Err(Refusal::SlotEmpty),
        Slot::Bad => Err(Refusal::NotWell),
        Slot::Full { origin, key, value } => Ok(Record { origin, key, value }),
    }
}

/// 5: whether slot i is free to be taken. Inner.
pub fn free_in(cache: &[u8], i: usize) -> Result<(), Refusal>
    requires { (i + 1) * slot_length ≤ length cache.now }
    ensures { MatchResult result (λ u. slot_in cache.now i ≡ Free) (λ e. IsNotFree (slot_in cache.now i) e) }
{
    match slot_of(cache, i) {
        Slot::Free => Ok(()),
        Slot::Bad => Err(Refusal::NotWell),
        Slot::Full { .. } => Err(Refusal::SlotTaken),
    }
}
