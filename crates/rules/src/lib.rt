//! The rules: what each entry, a step and a run come to, for any log, state and cache, as definitions (specs/) that the verifier's code, its
//! reader and the theorem about settled answers share. The declared types are what a run returns, and the epoch that a deferred add names.
//! Promises upward: document 01's examples M1 to M12 follow from the definitions.
#![tactic(auto)]

use state::{State, Tally};

/// What a run returns: the end state, the last epoch settled, entries met, entries accepted, bytes used.
#[derive(Clone, Copy)]
pub struct Ran {
    pub state: State,
    pub settled: u64,
    pub met: u64,
    pub accepted: u64,
    pub used: usize,
}

/// The open epoch that a deferred add names: the current one, or the old one with its tally.
#[derive(Clone, Copy)]
pub enum Named {
    Current,
    Old(Tally),
}
