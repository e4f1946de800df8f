//! Term keys, and whether a sealed entry has a given fingerprint. All calls are public and total.
//! Promises upward: the key is the SHA-256 of what `hashed` says, and the answer yes is the equality of digest and fingerprint.
#![tactic(auto)]

ghost use Rattle.std.specs.Prelude.{◌≡◌, ◌+◌, ◌≤◌, length};
ghost use Rattle.sha256.specs.Sha256.{sha256, answer};
ghost use Rattle.term.specs.Terms.{letters, well_code, well_term, hashed, term_key, matches, match_answer};

use verdict::Refusal;

// The longest code and term, and what is hashed of them.
const CODE_BYTES: usize = 8;

const TERM_BYTES: usize = 255;

const HASHED_BYTES: usize = CODE_BYTES + TERM_BYTES;

fn letters(s: &[u8]) -> bool
    ensures { result ≡ letters s.now }
{
    s.iter().all(|x| x.is_ascii_lowercase())
}

#[tactic(auto, unfolding(crate::specs::Terms::well_code))]
fn well_code(c: &[u8]) -> bool
    ensures { result ≡ well_code c.now }
{
    (2..=CODE_BYTES).contains(&c.len()) && letters(c)
}

#[tactic(auto, unfolding(crate::specs::Terms::well_term))]
fn well_term(t: &[u8]) -> bool
    ensures { result ≡ well_term t.now }
{
    (1..=TERM_BYTES).contains(&t.len())
}

// Inner.
fn key_of(code: &[u8], term: &[u8]) -> [u8; 32]
    requires { length code.now + length term.now ≤ 263 }
    ensures { result ≡ sha256 (hashed code.now term.now) }
{
    let mut b = [0u8; HASHED_BYTES];
    let n = words::put_bytes(&mut b, 0, code);
    let e = words::put_bytes(&mut b, n, term);
    sha256::hash_bytes(sha256::hash_of(&b[..e]))
}

/// The term key of a language code and a term.
#[tactic(auto, using(crate::proofs::Laws::good_fits), unfolding(crate::specs::Terms::term_key))]
pub fn term_key(code: &[u8], term: &[u8]) -> Result<[u8; 32], Refusal>
    ensures { answer result ≡ term_key code.now term.now }
{
    if well_code(code) && well_term(term) {
        Ok(key_of(code, term))
    } else {
        Err(Refusal::BadTerm)
    }
}

/// Whether a sealed entry has a fingerprint.
#[tactic(auto, using(crate::proofs::Laws::same_is), unfolding(crate::specs::Terms::matches, sha256::specs::Sha256::sha256))]
pub fn has_fingerprint(sealed: &[u8], fingerprint: &[u8; 32]) -> Result<bool, Refusal>
    ensures { match_answer result ≡ matches sealed.now fingerprint.now }
{
    if verdict::LONGEST < sealed.len() {
        return Err(Refusal::TooLong);
    }
    Ok(sha256::hash_bytes(sha256::hash_of(sealed)) == *fingerprint)
}
