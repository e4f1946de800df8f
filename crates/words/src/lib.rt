//! Numbers in lent bytes, high byte first.
//! Promises upward: what is read is the number that the bytes make, and what is written replaces exactly its bytes. The readers and writers
//! ask that the bytes are there: they are inner, for the crates above.
#![tactic(auto)]

ghost use Rattle.std.specs.Prelude.{◌≡◌, [], ◌∷◌, ◌+◌, ◌*◌, ◌-◌, ◌^◌, ◌≤◌, ◌<◌, length};
ghost use Rattle.words.specs.Numbers.{number_at, bytes_of, four_at, four_words};
ghost use Rattle.words.specs.Splices.{splice};

// Where the words of four side by side stand.
const SECOND_WORD: usize = 8;

const THIRD_WORD: usize = 16;

const FOURTH_WORD: usize = 24;

/// Four words side by side, as a data key and a digest have them.
#[derive(Clone, Copy, Debug, PartialEq, Eq)]
pub struct Four {
    pub first: u64,
    pub second: u64,
    pub third: u64,
    pub fourth: u64,
}

/// Two words of 32 bits as one of 64.
pub fn joined(high: u32, low: u32) -> u64
    ensures { (result ≡ high * 2 ^ 32 + low) × (high < 2 ^ 32) × (low < 2 ^ 32) }
{
    u64::from(high) << 32 | u64::from(low)
}

/// Thirty-two bytes. Inner.
#[tactic(auto, unfolding(crate::specs::Numbers::four_at))]
pub fn four_at(s: &[u8], at: usize) -> Four
    requires { at + 32 ≤ length s.now }
    ensures { result ≡ four_at s.now at }
{
    Four {
        first: read_number::<8>(s, at),
        second: read_number::<8>(s, at + SECOND_WORD),
        third: read_number::<8>(s, at + THIRD_WORD),
        fourth: read_number::<8>(s, at + FOURTH_WORD),
    }
}

/// One byte. Inner.
#[tactic(auto, using(crate::proofs::Laws::set_splice))]
pub fn put_u8(s: &mut [u8], at: usize, x: u8)
    requires { at < length s.old }
    ensures { s.new ≡ splice s.old at (x ∷ []) }
{
    s[at] = x;
}

/// The bytes of src; where they end. Inner.
pub fn put_bytes(out: &mut [u8], at: usize, src: &[u8]) -> usize
    requires { at + length src.now ≤ length out.old }
    ensures { (result ≡ at + length src.now) × (out.new ≡ splice out.old at src.now) }
{
    let end = at + src.len();
    out[at..end].copy_from_slice(src);
    end
}

/// The number that N bytes make. Inner.
pub fn read_number<const N: usize>(s: &[u8], at: usize) -> u64
    requires there { at + N ≤ length s.now }
    requires narrow { N ≤ 8 }
    ensures value { result ≡ number_at N s.now at }
    ensures fits { result < 256 ^ N }
{
    let mut bytes = [0; 8];
    put_bytes(&mut bytes, 8 - N, &s[at..at + N]);
    u64::from_be_bytes(bytes)
}

/// The lowest N bytes of a number. Inner.
pub fn put_number<const N: usize>(s: &mut [u8], at: usize, x: u64)
    requires there { at + N ≤ length s.old }
    requires narrow { N ≤ 8 }
    ensures { s.new ≡ splice s.old at (bytes_of N x) }
{
    let bytes = x.to_be_bytes();
    put_bytes(s, at, &bytes[8 - N..]);
}

/// Thirty-two bytes. Inner.
pub fn put_four(s: &mut [u8], at: usize, x: Four)
    requires { at + 32 ≤ length s.old }
    ensures { s.new ≡ splice s.old at (four_words x.first x.second x.third x.fourth) }
{
    put_number::<8>(s, at, x.first);
    put_number::<8>(s, at + SECOND_WORD, x.second);
    put_number::<8>(s, at + THIRD_WORD, x.third);
    put_number::<8>(s, at + FOURTH_WORD, x.fourth);
}
