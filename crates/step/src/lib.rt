//! One step: 28, 1, 3, 2, and then what the entry comes to.
//! Promises upward: verdict, next state, bytes used and every byte of the cache are the rules', for any log, any state and any lent cache; and
//! for a run, which knows its state and cache to be well formed and has made the expanded key, the same step without deciding that again.
#![tactic(auto)]

ghost use Rattle.std.specs.Prelude.{◌≡◌, true, ◌≤◌, Err};
ghost use Rattle.state.specs.States.{clock_limit, well_state};
ghost use Rattle.rules.specs.Outcomes.{outcome, done};
ghost use Rattle.rules.specs.Steps.{entry_step, stepped, step_well, step};
ghost use Rattle.step.specs.Progress.{progress};
ghost use Rattle.state.specs.declared.State.{State};

use entry::Entry;
use state::{Keyed, State};
use verdict::Refusal;

/// What a step gives: the next state, or why its entry is refused, which leaves the state as it was; and the bytes used.
#[derive(Clone, Copy)]
pub struct Progress {
    pub next: Result<State, Refusal>,
    pub used: usize,
}

impl Progress {
    // Before any entry is read: no bytes are used.
    fn refused(refusal: Refusal) -> Self
        ensures { result ≡ record { next = Err refusal; used = 0 } }
    {
        Self {
            next: Err(refusal),
            used: 0,
        }
    }

    /// The number that the step is told by.
    pub fn verdict(&self) -> u32
        ensures { (st : State) → result ≡ (progress self.now st).verdict }
    {
        verdict::told(&self.next)
    }

    /// The state after the step: the one before it, where the entry is refused.
    pub fn state(&self, before: State) -> State
        ensures { result ≡ (progress self.now before).state }
    {
        self.next.unwrap_or(before)
    }
}

// What an entry comes to. Inner.
#[tactic(auto, unfolding(rules::specs::Steps::entry_step))]
fn apply(keyed: &Keyed, e: Entry, cache: &mut [u8]) -> Result<State, Refusal>
    requires { keyed.now.state.clock.0 ≤ clock_limit }
    ensures { outcome (done result keyed.now.state) cache.new ≡ entry_step e keyed.now.state cache.old }
{
    let st = keyed.state;
    match e {
        Entry::AddTree { s, p, key, value } => adds::add_tree(s, p, key, value, st, cache),
        Entry::AddDeferred {
            s,
            epoch,
            time,
            key,
            value,
        } => deferred_adds::add_deferred(keyed, s, epoch, time, key, value, cache),
        Entry::EvictTree { s, p } => evicts::evict_by(keyed, false, s, p, cache),
        Entry::EvictDeferred { s } => deferred_evicts::evict_deferred(keyed, s, cache),
        Entry::EvictTreeDeferred { s, p } => evicts::evict_by(keyed, true, s, p, cache),
        Entry::Get { s, key, value } => {
            answers::get(s, key, value, cache)?;
            Ok(st)
        }
        Entry::Absent { p, key } => {
            answers::absent(p, key, cache)?;
            Ok(st)
        }
        Entry::Put { s, key, value } => answers::put(s, key, value, st, cache),
        Entry::Advance => epochs::advance(st),
        Entry::Close => epochs::close(st),
    }
}

/// A step on a state and a cache that are well formed: 3, 2, and then the entry. Inner.
#[tactic(auto, unfolding(rules::specs::Steps::step_well), using(state::proofs::Laws::well_clock, crate::proofs::Unread::step_unread))]
pub fn step_well(keyed: &Keyed, log: &[u8], cache: &mut [u8]) -> Progress
    requires { well_state keyed.now.state ≡ true }
    ensures { stepped (progress result keyed.now.state) cache.new ≡ step_well log.now keyed.now.state cache.old }
{
    match entry::read(log) {
        Err(unread) => Progress {
            next: Err(unread.into()),
            used: unread.used(),
        },
        Ok((entry, used)) => Progress {
            next: apply(keyed, entry, cache),
            used,
        },
    }
}

/// One step on any log, state and cache.
#[tactic(auto, unfolding(rules::specs::Steps::step))]
pub fn step(log: &[u8], st: State, cache: &mut [u8]) -> Progress
    ensures { stepped (progress result st) cache.new ≡ step log.now st cache.old }
{
    if !cache::well_length(cache) {
        return Progress::refused(Refusal::WrongCache);
    }
    if !(st.well() && cache::well_cache(cache)) {
        return Progress::refused(Refusal::NotWell);
    }
    step_well(&Keyed::new(st), log, cache)
}
