//! The static library: the public calls of crate thiraduan under their names for C, with the same promises; what each does stands there.
//! A slice passes as a pointer and a length, a lent array as a pointer; the verdict is the result.
//! Promises upward: what the calls below promise, every lent byte determined; a refused step leaves state and cache as they were, byte for byte.
#![tactic(auto)]

ghost use Rattle.std.specs.Prelude.{◌≡◌};
ghost use Rattle.aes.specs.Aes.{expansion, encrypted};
ghost use Rattle.cmac.specs.Tags.{tag_of, tag_with};
ghost use Rattle.flat.specs.Flats.{state_bytes};
ghost use Rattle.state.specs.States.{open_def};
ghost use Rattle.sha256.specs.Sha256.{digest_of};
ghost use Rattle.term.specs.Terms.{term_key, matches};
ghost use Rattle.thiraduan.specs.Answers.{flag, flat_read, flat_write, flat_step, flat_run, flat_settled};

#[unsafe(no_mangle)]
pub extern "C" fn thiraduan_digest(m: &[u8], out: &mut [u8; 32]) -> u32
    ensures verdict { result ≡ (digest_of m.now).verdict }
    ensures out_after { out.new ≡ (digest_of m.now).bytes }
{
    thiraduan::thiraduan_digest(m, out)
}

#[unsafe(no_mangle)]
pub extern "C" fn thiraduan_term_key(code: &[u8], term: &[u8], out: &mut [u8; 32]) -> u32
    ensures verdict { result ≡ (term_key code.now term.now).verdict }
    ensures out_after { out.new ≡ (term_key code.now term.now).bytes }
{
    thiraduan::thiraduan_term_key(code, term, out)
}

#[unsafe(no_mangle)]
pub extern "C" fn thiraduan_fingerprint(sealed: &[u8], fingerprint: &[u8; 32], yes: &mut u8) -> u32
    ensures verdict { result ≡ (matches sealed.now fingerprint.now).verdict }
    ensures yes_after { yes.new ≡ flag (matches sealed.now fingerprint.now).yes }
{
    thiraduan::thiraduan_fingerprint(sealed, fingerprint, yes)
}

#[unsafe(no_mangle)]
pub extern "C" fn thiraduan_tag(key: &[u8; 16], m: &[u8], out: &mut [u8; 16]) -> u32
    ensures verdict { result ≡ (tag_of key.now m.now).verdict }
    ensures out_after { out.new ≡ (tag_of key.now m.now).bytes }
{
    thiraduan::thiraduan_tag(key, m, out)
}

#[unsafe(no_mangle)]
pub extern "C" fn thiraduan_expand(key: &[u8; 16], out: &mut [u8; 176])
    ensures { out.new ≡ expansion key.now }
{
    thiraduan::thiraduan_expand(key, out);
}

#[unsafe(no_mangle)]
pub extern "C" fn thiraduan_tag_with(expanded: &[u8; 176], m: &[u8], out: &mut [u8; 16]) -> u32
    ensures verdict { result ≡ (tag_with expanded.now m.now).verdict }
    ensures out_after { out.new ≡ (tag_with expanded.now m.now).bytes }
{
    thiraduan::thiraduan_tag_with(expanded, m, out)
}

#[unsafe(no_mangle)]
pub extern "C" fn thiraduan_encrypt(expanded: &[u8; 176], block: &[u8; 16], out: &mut [u8; 16])
    ensures { out.new ≡ encrypted expanded.now block.now }
{
    thiraduan::thiraduan_encrypt(expanded, block, out);
}

#[unsafe(no_mangle)]
pub extern "C" fn thiraduan_read(
    log: &[u8],
    used: &mut u64,
    numbers: &mut [u64; 5],
    key: &mut [u8; 34],
    value: &mut [u8; 137],
) -> u32
    ensures verdict { result ≡ (flat_read log.now numbers.old key.old value.old).verdict }
    ensures used_after { used.new ≡ (flat_read log.now numbers.old key.old value.old).used }
    ensures numbers_after { numbers.new ≡ (flat_read log.now numbers.old key.old value.old).numbers }
    ensures key_after { key.new ≡ (flat_read log.now numbers.old key.old value.old).key }
    ensures value_after { value.new ≡ (flat_read log.now numbers.old key.old value.old).value }
{
    thiraduan::thiraduan_read(log, used, numbers, key, value)
}

#[unsafe(no_mangle)]
pub extern "C" fn thiraduan_write(
    numbers: &[u64; 5],
    key: &[u8; 34],
    value: &[u8; 137],
    out: &mut [u8],
    used: &mut u64,
) -> u32
    ensures verdict { result ≡ (flat_write numbers.now key.now value.now out.old).answer.verdict }
    ensures out_after { out.new ≡ (flat_write numbers.now key.now value.now out.old).bytes }
    ensures used_after { used.new ≡ (flat_write numbers.now key.now value.now out.old).answer.used }
{
    thiraduan::thiraduan_write(numbers, key, value, out, used)
}

#[unsafe(no_mangle)]
pub extern "C" fn thiraduan_open(key: &[u8; 16], cache: &mut [u8], state: &mut [u8; 129]) -> u32
    ensures verdict { result ≡ (open_def key.now cache.old).answer.verdict }
    ensures cache_after { cache.new ≡ (open_def key.now cache.old).bytes }
    ensures state_after { state.new ≡ state_bytes (open_def key.now cache.old).answer.state }
{
    thiraduan::thiraduan_open(key, cache, state)
}

#[unsafe(no_mangle)]
pub extern "C" fn thiraduan_step(
    log: &[u8],
    state: &mut [u8; 129],
    cache: &mut [u8],
    told: &mut [u64; 2],
) -> u32
    ensures verdict { result ≡ (flat_step log.now state.old cache.old told.old).verdict }
    ensures state_after { state.new ≡ (flat_step log.now state.old cache.old told.old).state }
    ensures cache_after { cache.new ≡ (flat_step log.now state.old cache.old told.old).cache }
    ensures told_after { told.new ≡ (flat_step log.now state.old cache.old told.old).told }
{
    thiraduan::thiraduan_step(log, state, cache, told)
}

#[unsafe(no_mangle)]
pub extern "C" fn thiraduan_run(
    log: &[u8],
    state: &mut [u8; 129],
    cache: &mut [u8],
    told: &mut [u64; 4],
) -> u32
    ensures verdict { result ≡ (flat_run log.now state.old cache.old told.old).verdict }
    ensures state_after { state.new ≡ (flat_run log.now state.old cache.old told.old).state }
    ensures cache_after { cache.new ≡ (flat_run log.now state.old cache.old told.old).cache }
    ensures told_after { told.new ≡ (flat_run log.now state.old cache.old told.old).told }
{
    thiraduan::thiraduan_run(log, state, cache, told)
}

#[unsafe(no_mangle)]
pub extern "C" fn thiraduan_settled(state: &[u8; 129], epoch: u64, yes: &mut u8) -> u32
    ensures verdict { result ≡ (flat_settled state.now epoch yes.old).verdict }
    ensures yes_after { yes.new ≡ (flat_settled state.now epoch yes.old).yes }
{
    thiraduan::thiraduan_settled(state, epoch, yes)
}
