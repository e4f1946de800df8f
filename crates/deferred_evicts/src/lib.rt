//! Entry 4, once its body is read: evict deferred. It works one tag.
//! Promises upward: verdict, state and every byte of the cache are the rules', for any lent cache and any state whose clock is below its
//! bound; the set key's expansion comes with the state.
#![tactic(auto)]

ghost use Rattle.std.specs.Prelude.{◌≡◌, ◌≤◌};
ghost use Rattle.state.specs.States.{clock_limit};
ghost use Rattle.rules.specs.Outcomes.{outcome, done};
ghost use Rattle.rules.specs.Evicts.{evict_deferred};

use records::{ROOT_SLOT, record_in};
use slot::{ORIGIN_DEFERRED, SLOT_BYTES, free_slot};
use state::{COUNT_LIMIT, Keyed, State};
use verdict::Refusal;

/// 4: s. 4, 17, 6, 16, 20. The clock rises by one, and the message goes into the current epoch's evicts. Inner.
#[tactic(auto, unfolding(rules::specs::Evicts::evict_deferred, state::specs::States::evicted))]
pub fn evict_deferred(keyed: &Keyed, s: u16, cache: &mut [u8]) -> Result<State, Refusal>
    requires { keyed.now.state.clock.0 ≤ clock_limit }
    ensures { outcome (done result keyed.now.state) cache.new ≡ evict_deferred s keyed.now.state cache.old }
{
    let st = keyed.state;
    let i = usize::from(s);
    if cache.len() / SLOT_BYTES <= i {
        return Err(Refusal::NoSlot);
    }
    if i == ROOT_SLOT {
        return Err(Refusal::RootSlot);
    }
    let record = record_in(cache, i)?;
    if record.origin != ORIGIN_DEFERRED {
        return Err(Refusal::WrongOrigin);
    }
    if COUNT_LIMIT <= st.tally.evicts {
        return Err(Refusal::CountFull);
    }
    let next = st.evicted_state(keyed.tag_of(st.evict_message(record.key, record.value)));
    free_slot(cache, i);
    Ok(next)
}
