//! A run over a log.
//! Promises upward: what is returned and every byte of the cache are the rules', for any log, any state and any lent cache; it is made on the
//! inner step, with one expanded key for the whole run.
#![tactic(auto)]

ghost use Rattle.std.specs.Prelude.{◌≡◌, true, drop};
ghost use Rattle.state.specs.States.{settled};
ghost use Rattle.rules.specs.Runs.{running, halts, sound, run};

use reader::Reader;
use rules::Ran;
use state::{Keyed, State};
use verdict::Refusal;

// The verdicts at which a run stops.
const WRONG_CACHE: u32 = Refusal::WrongCache as u32;

const NOT_WELL: u32 = Refusal::NotWell as u32;

const SHORT: u32 = Refusal::Short as u32;

/// Whether a run stops at a verdict: 28, 1 or 3.
#[tactic(auto, unfolding(rules::specs::Runs::halts))]
pub fn halts(v: u32) -> bool
    ensures { result ≡ halts v }
{
    matches!(v, WRONG_CACHE | NOT_WELL | SHORT)
}

/// Whether neither 28 nor 1 applies.
#[tactic(auto, unfolding(rules::specs::Runs::sound))]
pub fn sound(st: State, cache: &[u8]) -> bool
    ensures { result ≡ sound st cache.now }
{
    cache::well_length(cache) && st.well() && cache::well_cache(cache)
}

/// What is left of a log from a place on, by the reader that keeps the two together.
pub fn left(log: &[u8], at: usize) -> &[u8]
    ensures { result.now ≡ drop at log.now }
{
    Reader::at(log, at).rest()
}

// The end of a run to which neither 28 nor 1 applies.
fn ended(st: State, met: u64, accepted: u64, used: usize) -> Ran
    ensures { result ≡ record { state = st; settled = settled st; met = met; accepted = accepted; used = used } }
{
    Ran {
        state: st,
        settled: st.settled(),
        met,
        accepted,
        used,
    }
}

// A run on a state and a cache to which neither 28 nor 1 applies. Inner.
#[tactic(auto, using(crate::proofs::Laws::between_first, crate::proofs::Laws::between_over, crate::proofs::Laws::going_state))]
fn run_well(start: Keyed, log: &[u8], cache: &mut [u8]) -> Ran
    requires { sound start.state cache.old ≡ true }
    ensures { running result cache.new ≡ run log.now start.state cache.old }
{
    let mut keyed = start;
    let mut at = 0;
    let mut met: u64 = 0;
    let mut accepted: u64 = 0;
    while at < log.len() {
        let step = step::step_well(&keyed, left(log, at), cache);
        met += 1;
        match step.next {
            Ok(next) => {
                keyed = keyed.with(next);
                accepted += 1;
            }
            Err(refusal) => {
                if halts(u32::from(refusal)) {
                    return ended(keyed.state, met, accepted, at);
                }
            }
        }
        at += step.used;
    }
    ended(keyed.state, met, accepted, at)
}

/// A run over a log, one step after another. Where 28 or 1 applies, it stops at the first entry, which counts as met.
#[tactic(auto, using(crate::proofs::Laws::refused_met))]
pub fn run(log: &[u8], st: State, cache: &mut [u8]) -> Ran
    ensures { running result cache.new ≡ run log.now st cache.old }
{
    if sound(st, cache) {
        return run_well(Keyed::new(st), log, cache);
    }
    Ran {
        state: st,
        settled: 0,
        met: u64::from(!log.is_empty()),
        accepted: 0,
        used: 0,
    }
}
