//! The trusted state and its changes, its part of well-formedness, and opening.
//! Promises upward: each change is the definition's, and an opened state with its cache is well formed.
#![tactic(auto)]

ghost use Rattle.std.specs.Prelude.{◌≡◌, ◌+◌, ◌*◌, ◌-◌, ◌≤◌, ◌<◌, leb};
ghost use Rattle.aes.specs.Aes.{expansion};
ghost use Rattle.hash.specs.Hashes.{set_bytes, tag_of};
ghost use Rattle.state.specs.States.{epoch_limit, count_limit, clock_limit, well_tally, well_old, well_state, tally_add, tally_evict, added_current, added_old, evicted_state, evict_message, advanced_state, closed_state, fresh_state, opening, opened, open_def, settled};

use aes::Expanded;
use cmac::Tag;
use hash::SetKey;
use key::Key;
use message::{Epoch, Message, Time};
use value::Value;
use verdict::Refusal;

/// The most that an epoch may be, and that a count may be.
pub const EPOCH_LIMIT: u64 = 1000000;

pub const COUNT_LIMIT: u64 = 1000000;

// The first epoch, before which there is no old one.
const FIRST_EPOCH: u64 = 1;

/// An epoch's counts and sums.
#[derive(Clone, Copy, Debug, PartialEq, Eq)]
pub struct Tally {
    pub adds: u64,
    pub evicts: u64,
    pub addsum: Tag,
    pub evictsum: Tag,
}

/// The set key, the clock, the current epoch with its tally, and the old epoch's tally, if one is open: it is always the current one less 1, and
/// closed, there are no counts and sums of it at all.
#[derive(Clone, Copy)]
pub struct State {
    pub set: SetKey,
    pub clock: Time,
    pub epoch: Epoch,
    pub tally: Tally,
    pub old: Option<Tally>,
}

/// A state together with its set key's expansion, which is made once for a run.
#[derive(Clone, Copy)]
pub struct Keyed {
    pub state: State,
    pub expanded: Expanded,
    pub ghost of_its_key: { expanded.bytes ≡ expansion (set_bytes state.set) },
}

impl Tally {
    /// Of no messages.
    pub const NONE: Self = Self {
        adds: 0,
        evicts: 0,
        addsum: Tag::ZERO,
        evictsum: Tag::ZERO,
    };

    fn well(self) -> bool
        ensures { result ≡ well_tally self }
    {
        self.adds <= COUNT_LIMIT && self.evicts <= COUNT_LIMIT
    }

    // A message more in the adds. Inner.
    fn added(self, g: Tag) -> Self
        requires { self.adds < count_limit }
        ensures { result ≡ tally_add self g }
    {
        Self {
            adds: self.adds + 1,
            addsum: self.addsum ^ g,
            ..self
        }
    }

    // A message more in the evicts. Inner.
    fn evicted(self, g: Tag) -> Self
        requires { self.evicts < count_limit }
        ensures { result ≡ tally_evict self g }
    {
        Self {
            evicts: self.evicts + 1,
            evictsum: self.evictsum ^ g,
            ..self
        }
    }
}

fn well_old(e: u64, old: Option<Tally>) -> bool
    ensures { result ≡ well_old e old }
{
    match old {
        None => true,
        Some(t) => e != FIRST_EPOCH && t.well(),
    }
}

// The clock is at most 1,000,000 times (current less 1) plus the current evict count. No clock is above the largest word, so the bound may stop there.
fn well_clock(clock: u64, e: u64, evicts: u64) -> bool
    ensures { result ≡ leb clock (count_limit * (e - 1) + evicts) }
{
    clock
        <= COUNT_LIMIT
            .saturating_mul(e.saturating_sub(1))
            .saturating_add(evicts)
}

impl State {
    /// The state's part of 1.
    #[tactic(auto, unfolding(crate::specs::States::well_state))]
    pub fn well(self) -> bool
        ensures { result ≡ well_state self }
    {
        let e = self.epoch.0;
        (FIRST_EPOCH..=EPOCH_LIMIT).contains(&e)
            && well_old(e, self.old)
            && self.tally.well()
            && well_clock(self.clock.0, e, self.tally.evicts)
    }

    /// The last epoch settled: current less 1, or less 2 with an old epoch open.
    #[tactic(auto, unfolding(crate::specs::States::settled))]
    pub fn settled(self) -> u64
        ensures { result ≡ settled self }
    {
        match self.old {
            None => self.epoch.0.saturating_sub(1),
            Some(_) => self.epoch.0.saturating_sub(2),
        }
    }

    /// Entry 2, into the current epoch. Inner.
    #[tactic(auto, unfolding(crate::specs::States::added_current))]
    pub fn added_current(self, g: Tag) -> Self
        requires { self.tally.adds < count_limit }
        ensures { result ≡ added_current self g }
    {
        Self {
            tally: self.tally.added(g),
            ..self
        }
    }

    /// Entry 2, into the old epoch, whose tally the caller has in hand. Inner.
    #[tactic(auto, unfolding(crate::specs::States::added_old))]
    pub fn added_old(self, t: Tally, g: Tag) -> Self
        requires { t.adds < count_limit }
        ensures { result ≡ added_old self t g }
    {
        Self {
            old: Some(t.added(g)),
            ..self
        }
    }

    /// Entries 4 and 5: the clock rises by one, and the message goes into the current epoch's evicts. Inner.
    #[tactic(auto, unfolding(crate::specs::States::evicted_state))]
    pub fn evicted_state(self, g: Tag) -> Self
        requires { (self.clock.0 ≤ clock_limit) × (self.tally.evicts < count_limit) }
        ensures { result ≡ evicted_state self g }
    {
        Self {
            clock: Time(self.clock.0 + 1),
            tally: self.tally.evicted(g),
            ..self
        }
    }

    /// The message of a record that leaves now: the current epoch, the new clock. Inner.
    #[tactic(auto, unfolding(crate::specs::States::evict_message))]
    pub fn evict_message(self, key: Key, value: Value) -> Message
        requires { self.clock.0 ≤ clock_limit }
        ensures { result ≡ evict_message self key value }
    {
        Message {
            epoch: self.epoch,
            time: Time(self.clock.0 + 1),
            key,
            value,
        }
    }

    /// Entry 9: the current epoch becomes the old one; a new one opens with zeros. Inner.
    #[tactic(auto, unfolding(crate::specs::States::advanced_state))]
    pub fn advanced(self) -> Self
        requires { self.epoch.0 < epoch_limit }
        ensures { result ≡ advanced_state self }
    {
        Self {
            epoch: Epoch(self.epoch.0 + 1),
            tally: Tally::NONE,
            old: Some(self.tally),
            ..self
        }
    }

    /// Entry 10: the old epoch is closed and settled.
    #[tactic(auto, unfolding(crate::specs::States::closed_state))]
    pub fn closed(self) -> Self
        ensures { result ≡ closed_state self }
    {
        Self { old: None, ..self }
    }

    #[tactic(auto, unfolding(crate::specs::States::fresh_state))]
    fn fresh(key: &[u8; hash::SET_KEY_BYTES]) -> Self
        ensures { result ≡ fresh_state key.now }
    {
        Self {
            set: hash::set_key(key),
            clock: Time(0),
            epoch: Epoch(FIRST_EPOCH),
            tally: Tally::NONE,
            old: None,
        }
    }
}

impl Keyed {
    pub fn new(state: State) -> Self
        ensures { result.state ≡ state }
    {
        Self {
            state,
            expanded: hash::expanded(state.set),
        }
    }

    /// Another state under the same set key. Inner.
    pub fn with(&self, state: State) -> Self
        requires { state.set ≡ self.now.state.set }
        ensures { result.state ≡ state }
    {
        Self {
            state,
            expanded: self.expanded,
        }
    }

    /// The tag of a message under the set key.
    #[tactic(auto, unfolding(hash::specs::Hashes::tag_of))]
    pub fn tag_of(&self, m: Message) -> Tag
        ensures { result ≡ tag_of self.now.state.set m }
    {
        hash::tag_of(&self.expanded, m)
    }
}

/// A fresh state, with the root in slot 0 of the lent cache and zeros behind; or 28, and the cache untouched.
pub fn open(key: &[u8; hash::SET_KEY_BYTES], cache: &mut [u8]) -> Result<State, Refusal>
    ensures { opening (opened result) cache.new ≡ open_def key.now cache.old }
{
    if cache::well_length(cache) {
        slot::clear(cache);
        let root = Value::Node(tree::bare_node());
        slot::set_slot(cache, 0, slot::ORIGIN_TREE, Key::ROOT, root);
        return Ok(State::fresh(key));
    }
    Err(Refusal::WrongCache)
}
