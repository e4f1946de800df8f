//! Entries 9 and 10: advance and close. Neither looks at the cache.
//! Promises upward: verdict and state are the rules', for any state.
#![tactic(auto)]

ghost use Rattle.std.specs.Prelude.{◌≡◌};
ghost use Rattle.rules.specs.Outcomes.{done};
ghost use Rattle.rules.specs.Epochs.{advance, close};

use state::{EPOCH_LIMIT, State};
use verdict::Refusal;

/// 9: 22, 21. The current epoch becomes the old one; a new one opens with zeros.
#[tactic(auto, unfolding(rules::specs::Epochs::advance))]
pub fn advance(st: State) -> Result<State, Refusal>
    ensures { done result st ≡ advance st }
{
    if st.old.is_some() {
        return Err(Refusal::WrongMoment);
    }
    if EPOCH_LIMIT <= st.epoch.0 {
        return Err(Refusal::EpochFull);
    }
    Ok(st.advanced())
}

/// 10: 22, 23, 24. Counts equal, sums equal; the old epoch is closed and settled.
#[tactic(auto, unfolding(rules::specs::Epochs::close))]
pub fn close(st: State) -> Result<State, Refusal>
    ensures { done result st ≡ close st }
{
    let Some(old) = st.old else {
        return Err(Refusal::WrongMoment);
    };
    if old.adds != old.evicts {
        return Err(Refusal::CountsDiffer);
    }
    if old.addsum != old.evictsum {
        return Err(Refusal::SumsDiffer);
    }
    Ok(st.closed())
}
