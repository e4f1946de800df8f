//! Entries 3 and 5, once their bodies are read: evict to tree, evict a tree record deferred. They share their checks up to 11; 3 works one
//! digest, 5 one tag.
//! Promises upward: verdict, state and every byte of the cache are the rules', for any lent cache and any state whose clock is below its
//! bound; the set key's expansion comes with the state.
#![tactic(auto)]

ghost use Rattle.std.specs.Prelude.{◌≡◌, false, ◌+◌, ◌*◌, ◌≤◌, length};
ghost use Rattle.value.specs.declared.Side.TheVariants.{Link};
ghost use Rattle.hash.specs.Hashes.{digest_of};
ghost use Rattle.slot.specs.Slots.{slot_length};
ghost use Rattle.state.specs.States.{clock_limit};
ghost use Rattle.rules.specs.Outcomes.{outcome, done};
ghost use Rattle.rules.specs.Evicts.{unlinked, to_deferred, evict_link, evict_under, evict_by};

use records::{Parent, ROOT_SLOT, Record, record_in};
use slot::{ORIGIN_TREE, SLOT_BYTES, free_slot};
use state::{COUNT_LIMIT, Keyed, State};
use value::{Digest, Side, Value};
use verdict::Refusal;

// The record that leaves, and the slot that it leaves.
#[derive(Clone, Copy)]
struct Leaving {
    slot: usize,
    held: Record,
}

impl Leaving {
    // Its parent's link replaced, and its slot free. Inner.
    #[tactic(auto, unfolding(rules::specs::Evicts::unlinked))]
    fn unlink(self, at: Parent, link: Side, cache: &mut [u8])
        requires { ((self.slot + 1) * slot_length ≤ length cache.old) × ((at.slot + 1) * slot_length ≤ length cache.old) }
        ensures { cache.new ≡ unlinked self.slot at.slot at.origin at.key at.node at.right link cache.old }
    {
        at.set_side(link, cache);
        free_slot(cache, self.slot);
    }

    // 3: the parent's link gets the digest of the value and mark 0. Either origin will do. Inner.
    fn to_tree(self, at: Parent, cache: &mut [u8])
        requires { ((self.slot + 1) * slot_length ≤ length cache.old) × ((at.slot + 1) * slot_length ≤ length cache.old) }
        ensures { cache.new ≡ unlinked self.slot at.slot at.origin at.key at.node at.right (Link self.held.key (digest_of self.held.value) false) cache.old }
    {
        let link = Side::Link {
            key: self.held.key,
            digest: hash::digest_of(self.held.value),
            mark: false,
        };
        self.unlink(at, link, cache);
    }

    // 5: 16, 20. The mark is set in the parent's link, and its digest stays. The clock rises by one, and the message goes into the current
    // epoch's evicts. Inner.
    #[tactic(auto, unfolding(state::specs::States::evicted))]
    fn to_deferred(
        self,
        keyed: &Keyed,
        at: Parent,
        digest: Digest,
        cache: &mut [u8],
    ) -> Result<State, Refusal>
        requires { (keyed.now.state.clock.0 ≤ clock_limit) × ((self.slot + 1) * slot_length ≤ length cache.old) × ((at.slot + 1) * slot_length ≤ length cache.old) }
        ensures { outcome (done result keyed.now.state) cache.new ≡ to_deferred self.slot at.slot self.held.origin self.held.key self.held.value at.origin at.key at.node at.right keyed.now.state cache.old digest }
    {
        let st = keyed.state;
        if self.held.origin != ORIGIN_TREE {
            return Err(Refusal::WrongOrigin);
        }
        if COUNT_LIMIT <= st.tally.evicts {
            return Err(Refusal::CountFull);
        }
        let link = Side::Link {
            key: self.held.key,
            digest,
            mark: true,
        };
        self.unlink(at, link, cache);
        Ok(st.evicted_state(keyed.tag_of(st.evict_message(self.held.key, self.held.value))))
    }

    // 11: the parent's side toward the key is a link that names it. Then 3, or 5 where deferring. Inner.
    #[tactic(auto, unfolding(rules::specs::Evicts::evict_link, key::specs::Keys::key_eq))]
    fn evict_link(
        self,
        keyed: &Keyed,
        deferring: bool,
        at: Parent,
        cache: &mut [u8],
    ) -> Result<State, Refusal>
        requires { (keyed.now.state.clock.0 ≤ clock_limit) × ((self.slot + 1) * slot_length ≤ length cache.old) × ((at.slot + 1) * slot_length ≤ length cache.old) }
        ensures { outcome (done result keyed.now.state) cache.new ≡ evict_link deferring self.slot at.slot self.held.origin self.held.key self.held.value at.origin at.key at.node at.right keyed.now.state cache.old }
    {
        let Side::Link { key, digest, .. } = at.side() else {
            return Err(Refusal::NoLink);
        };
        if key != self.held.key {
            return Err(Refusal::NoLink);
        }
        if deferring {
            return self.to_deferred(keyed, at, digest, cache);
        }
        self.to_tree(at, cache);
        Ok(keyed.state)
    }

    // 6 of p, 8 of p, 10. Inner.
    #[tactic(auto, unfolding(rules::specs::Evicts::evict_under, rules::specs::Evicts::evict_node))]
    fn evict_under(
        self,
        keyed: &Keyed,
        deferring: bool,
        p: usize,
        cache: &mut [u8],
    ) -> Result<State, Refusal>
        requires { (keyed.now.state.clock.0 ≤ clock_limit) × ((self.slot + 1) * slot_length ≤ length cache.old) × ((p + 1) * slot_length ≤ length cache.old) }
        ensures { outcome (done result keyed.now.state) cache.new ≡ evict_under deferring self.slot p self.held.origin self.held.key self.held.value keyed.now.state cache.old }
    {
        let parent = record_in(cache, p)?;
        let Value::Node(node) = parent.value else {
            return Err(Refusal::WrongKind);
        };
        if !parent.key.above(self.held.key) {
            return Err(Refusal::NoAncestor);
        }
        let at = Parent {
            slot: p,
            origin: parent.origin,
            key: parent.key,
            node,
            right: parent.key.toward(self.held.key),
        };
        self.evict_link(keyed, deferring, at, cache)
    }
}

/// 3, or 5 where deferring: s, p. 4 of s and of p, 17, 6 of s, and so on. Inner.
#[tactic(auto, unfolding(rules::specs::Evicts::evict_by))]
pub fn evict_by(
    keyed: &Keyed,
    deferring: bool,
    s: u16,
    p: u16,
    cache: &mut [u8],
) -> Result<State, Refusal>
    requires { keyed.now.state.clock.0 ≤ clock_limit }
    ensures { outcome (done result keyed.now.state) cache.new ≡ evict_by deferring s p keyed.now.state cache.old }
{
    let count = cache.len() / SLOT_BYTES;
    let i = usize::from(s);
    let j = usize::from(p);
    if count <= i || count <= j {
        return Err(Refusal::NoSlot);
    }
    if i == ROOT_SLOT {
        return Err(Refusal::RootSlot);
    }
    let held = record_in(cache, i)?;
    let leaving = Leaving { slot: i, held };
    leaving.evict_under(keyed, deferring, j, cache)
}
