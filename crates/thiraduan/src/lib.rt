//! The public calls for C and Rust, each a thin cover over a proved call. Crate thiraduan_c exports them.
//! Promises upward: what the calls below promise, every lent byte determined; a refused step leaves state and cache as they were, byte for byte.
#![tactic(auto)]

ghost use Rattle.std.specs.Prelude.{◌≡◌};
ghost use Rattle.aes.specs.Aes.{expansion, encrypted};
ghost use Rattle.cmac.specs.Tags.{tag_of, tag_with};
ghost use Rattle.flat.specs.Flats.{state_bytes};
ghost use Rattle.state.specs.States.{open_def};
ghost use Rattle.sha256.specs.Sha256.{digest_of};
ghost use Rattle.term.specs.Terms.{term_key, matches};
ghost use Rattle.verdict.specs.Verdicts.{told};
ghost use Rattle.thiraduan.specs.Answers.{flag, handed_over, flat_read, flat_write, answer_epoch, flat_step, flat_run, is_settled, flat_settled};

use hash::SetKey;
use message::{Epoch, Time};
use state::{State, Tally};
use verdict::{Refusal, told};

// Epochs count from 1; 0 is told where there is none.
const NO_EPOCH: u64 = 0;

const FIRST_EPOCH: u64 = 1;

// What a refused opening hands out.
const NO_STATE: State = State {
    set: SetKey { k0: 0, k1: 0 },
    clock: Time(0),
    epoch: Epoch(0),
    tally: Tally::NONE,
    old: None,
};

// An answer's bytes go to out, zeros where it is refused; its number.
fn hand_over<const N: usize>(answer: Result<[u8; N], Refusal>, out: &mut [u8; N]) -> u32
    ensures verdict { result ≡ told answer.entry }
    ensures out_after { out.new ≡ handed_over N answer.entry }
{
    *out = answer.unwrap_or([0; N]);
    told(&answer)
}

/// The digest of m goes to out: zero bytes with 30.
pub fn thiraduan_digest(m: &[u8], out: &mut [u8; 32]) -> u32
    ensures verdict { result ≡ (digest_of m.now).verdict }
    ensures out_after { out.new ≡ (digest_of m.now).bytes }
{
    hand_over(sha256::digest(m), out)
}

/// The term key goes to out: zero bytes with 29.
pub fn thiraduan_term_key(code: &[u8], term: &[u8], out: &mut [u8; 32]) -> u32
    ensures verdict { result ≡ (term_key code.now term.now).verdict }
    ensures out_after { out.new ≡ (term_key code.now term.now).bytes }
{
    hand_over(term::term_key(code, term), out)
}

/// Whether a sealed entry has the fingerprint, to yes: 0 with 30.
pub fn thiraduan_fingerprint(sealed: &[u8], fingerprint: &[u8; 32], yes: &mut u8) -> u32
    ensures verdict { result ≡ (matches sealed.now fingerprint.now).verdict }
    ensures yes_after { yes.new ≡ flag (matches sealed.now fingerprint.now).yes }
{
    let answer = term::has_fingerprint(sealed, fingerprint);
    *yes = u8::from(answer.unwrap_or(false));
    told(&answer)
}

/// The tag of m under a set key goes to out: zero bytes with 30.
#[tactic(auto, unfolding(words::specs::Numbers::zeros))]
pub fn thiraduan_tag(key: &[u8; 16], m: &[u8], out: &mut [u8; 16]) -> u32
    ensures verdict { result ≡ (tag_of key.now m.now).verdict }
    ensures out_after { out.new ≡ (tag_of key.now m.now).bytes }
{
    hand_over(cmac::tag_of(key, m), out)
}

/// The expansion of a set key goes to out.
pub fn thiraduan_expand(key: &[u8; 16], out: &mut [u8; 176])
    ensures { out.new ≡ expansion key.now }
{
    let bytes = aes::expand(key).bytes;
    *out = bytes;
}

/// The tag of m under an expanded key goes to out: zero bytes with 30.
#[tactic(auto, unfolding(words::specs::Numbers::zeros))]
pub fn thiraduan_tag_with(expanded: &[u8; 176], m: &[u8], out: &mut [u8; 16]) -> u32
    ensures verdict { result ≡ (tag_with expanded.now m.now).verdict }
    ensures out_after { out.new ≡ (tag_with expanded.now m.now).bytes }
{
    hand_over(cmac::tag_under(expanded, m), out)
}

/// One block under an expanded key goes to out.
pub fn thiraduan_encrypt(expanded: &[u8; 176], block: &[u8; 16], out: &mut [u8; 16])
    ensures { out.new ≡ encrypted expanded.now block.now }
{
    *out = aes::encrypt_under(expanded, block);
}

/// The entry at the start of log: 0, 2 or 3, and its whole length, or 0 with 3, to used. With 0 its tag, s, p, epoch and time go to numbers, its key to key,
/// and its value, and then zeros, to value; what it does not have is 0, the root key or the value none. With 2 and 3 these are untouched.
#[tactic(auto, using(crate::proofs::Unread::flat_unread), unfolding(crate::specs::Answers::flat_read))]
pub fn thiraduan_read(
    log: &[u8],
    used: &mut u64,
    numbers: &mut [u64; 5],
    key: &mut [u8; 34],
    value: &mut [u8; 137],
) -> u32
    ensures verdict { result ≡ (flat_read log.now numbers.old key.old value.old).verdict }
    ensures used_after { used.new ≡ (flat_read log.now numbers.old key.old value.old).used }
    ensures numbers_after { numbers.new ≡ (flat_read log.now numbers.old key.old value.old).numbers }
    ensures key_after { key.new ≡ (flat_read log.now numbers.old key.old value.old).key }
    ensures value_after { value.new ≡ (flat_read log.now numbers.old key.old value.old).value }
{
    match entry::read(log) {
        Err(unread) => {
            *used = unread.used() as u64;
            u32::from(Refusal::from(unread))
        }
        Ok((e, n)) => {
            let f = fields::fields_of(e);
            *numbers = fields::numbers_of(f);
            fields::write_key(f.key, key);
            fields::write_value(f.value, value);
            *used = n as u64;
            verdict::ACCEPTED
        }
    }
}

/// The entry of these fields, written to the front of out: 0 and its length to used, no other byte touched. 2 where they are no entry or it would not be
/// read back, then 27: 0 to used, and out untouched.
#[tactic(auto, unfolding(crate::specs::Answers::flat_write))]
pub fn thiraduan_write(
    numbers: &[u64; 5],
    key: &[u8; 34],
    value: &[u8; 137],
    out: &mut [u8],
    used: &mut u64,
) -> u32
    ensures verdict { result ≡ (flat_write numbers.now key.now value.now out.old).answer.verdict }
    ensures out_after { out.new ≡ (flat_write numbers.now key.now value.now out.old).bytes }
    ensures used_after { used.new ≡ (flat_write numbers.now key.now value.now out.old).answer.used }
{
    let written = match fields::read_fields(numbers, key, value) {
        None => Err(Refusal::Malformed),
        Some(e) => writer::write(e, out),
    };
    *used = written.unwrap_or(0) as u64;
    told(&written)
}

/// Opening: a fresh state's 129 bytes to state, the root in slot 0 of the cache and zeros behind. With 28 a state of zeros, and the cache untouched.
pub fn thiraduan_open(key: &[u8; 16], cache: &mut [u8], state: &mut [u8; 129]) -> u32
    ensures verdict { result ≡ (open_def key.now cache.old).answer.verdict }
    ensures cache_after { cache.new ≡ (open_def key.now cache.old).bytes }
    ensures state_after { state.new ≡ state_bytes (open_def key.now cache.old).answer.state }
{
    let opened = state::open(key, cache);
    flat::write_state(state, opened.unwrap_or(NO_STATE));
    told(&opened)
}

// The epoch that an accepted get or absence is settled with: the one that was current at it.
#[tactic(auto, unfolding(crate::specs::Answers::answer_epoch))]
fn answer_epoch(verdict: u32, tag: u8, current: u64) -> u64
    ensures { result ≡ answer_epoch verdict tag current }
{
    match tag {
        entry::GET_TAG | entry::ABSENT_TAG if verdict == verdict::ACCEPTED => current,
        _ => NO_EPOCH,
    }
}

/// One step on a state's 129 bytes: the next state's bytes to state; the bytes used and the answer's epoch to told, 0 where the entry is
/// refused or no answer. Bytes that are no state: 1, and nothing is written.
#[tactic(auto, unfolding(crate::specs::Answers::flat_step))]
pub fn thiraduan_step(
    log: &[u8],
    state: &mut [u8; 129],
    cache: &mut [u8],
    told: &mut [u64; 2],
) -> u32
    ensures verdict { result ≡ (flat_step log.now state.old cache.old told.old).verdict }
    ensures state_after { state.new ≡ (flat_step log.now state.old cache.old told.old).state }
    ensures cache_after { cache.new ≡ (flat_step log.now state.old cache.old told.old).cache }
    ensures told_after { told.new ≡ (flat_step log.now state.old cache.old told.old).told }
{
    let Some(st) = flat::read_state(state) else {
        return u32::from(Refusal::NotWell);
    };
    let tag = log.first().copied().unwrap_or(0);
    let r = step::step(log, st, cache);
    let verdict = r.verdict();
    flat::write_state(state, r.state(st));
    *told = [r.used as u64, answer_epoch(verdict, tag, st.epoch.0)];
    verdict
}

/// A run over a log on a state's 129 bytes: the end state's bytes to state; the last epoch settled, entries met, entries accepted and bytes used to told.
/// Bytes that are no state: 1, and nothing is written.
#[tactic(auto, unfolding(crate::specs::Answers::flat_run))]
pub fn thiraduan_run(
    log: &[u8],
    state: &mut [u8; 129],
    cache: &mut [u8],
    told: &mut [u64; 4],
) -> u32
    ensures verdict { result ≡ (flat_run log.now state.old cache.old told.old).verdict }
    ensures state_after { state.new ≡ (flat_run log.now state.old cache.old told.old).state }
    ensures cache_after { cache.new ≡ (flat_run log.now state.old cache.old told.old).cache }
    ensures told_after { told.new ≡ (flat_run log.now state.old cache.old told.old).told }
{
    let Some(st) = flat::read_state(state) else {
        return u32::from(Refusal::NotWell);
    };
    let r = run::run(log, st, cache);
    flat::write_state(state, r.state);
    *told = [r.settled, r.met, r.accepted, r.used as u64];
    verdict::ACCEPTED
}

fn is_settled(st: State, epoch: u64) -> bool
    ensures { result ≡ is_settled st epoch }
{
    (FIRST_EPOCH..=st.settled()).contains(&epoch)
}

/// Whether an epoch is settled in a state's 129 bytes, to yes. Bytes that are no state, or one that is not well formed: 1, and nothing is written.
#[tactic(auto, unfolding(crate::specs::Answers::flat_settled))]
pub fn thiraduan_settled(state: &[u8; 129], epoch: u64, yes: &mut u8) -> u32
    ensures verdict { result ≡ (flat_settled state.now epoch yes.old).verdict }
    ensures yes_after { yes.new ≡ (flat_settled state.now epoch yes.old).yes }
{
    let Some(st) = flat::read_state(state) else {
        return u32::from(Refusal::NotWell);
    };
    if !st.well() {
        return u32::from(Refusal::NotWell);
    }
    *yes = u8::from(is_settled(st, epoch));
    verdict::ACCEPTED
}
