//! Keys: strings of 0 to 256 bits, as 34 bytes and as words, with the tests that the entries make.
//! Promises upward: what is written is read back, every bit past the length is zero, `above` is proper prefix, `toward` the next bit.
#![tactic(auto)]

ghost use Rattle.std.specs.Prelude.{◌≡◌, ◌+◌, ◌-◌, ◌%◌, ◌^◌, ◌≤◌, ◌<◌, length, [], ◌∷◌};
ghost use Rattle.words.specs.Splices.{splice};
ghost use Rattle.key.specs.Keys.{key_at, key_bytes, data_at, data_bytes, above, toward, bit_at, well_key, root_key, data_key, is_data, clean, same_top};

use words::{Four, four_at, put_four, put_number, read_number};

/// A key's bytes, its length among them.
pub const KEY_BYTES: usize = 34;

// A key's length stands before its bits.
const LENGTH_BYTES: usize = 2;

// The bits that one word, two and three hold.
const ONE_WORD: u64 = 64;

const TWO_WORDS: u64 = 128;

const THREE_WORDS: u64 = 192;

/// The length in bits, 0 to 256, and the bits as four words, the first bit the top bit of w0.
#[derive(Clone, Copy, Debug, PartialEq, Eq)]
pub struct Key {
    pub len: u16,
    pub w0: u64,
    pub w1: u64,
    pub w2: u64,
    pub w3: u64,
}

// The low n bits of a word. Inner.
fn low(n: u64, w: u64) -> u64
    requires { n < 64 }
    ensures { result ≡ w % 2 ^ n }
{
    w & ((1 << n) - 1)
}

// A shift by a whole word is no shift to the machine: hence the cases here and in `same_top`.
#[tactic(auto, using(crate::proofs::Laws::clean_none, crate::proofs::Laws::clean_all), unfolding(crate::specs::Keys::clean))]
fn clean(n: u64, w: u64) -> bool
    ensures { result ≡ clean n w }
{
    match n {
        0 => w == 0,
        1..ONE_WORD => low(ONE_WORD - n, w) == 0,
        _ => true,
    }
}

#[tactic(auto, using(crate::proofs::Laws::same_top_none, crate::proofs::Laws::same_top_all), unfolding(crate::specs::Keys::same_top))]
fn same_top(n: u64, x: u64, y: u64) -> bool
    ensures { result ≡ same_top n x y }
{
    match n {
        0 => true,
        1..ONE_WORD => x >> (ONE_WORD - n) == y >> (ONE_WORD - n),
        _ => x == y,
    }
}

impl Key {
    /// The widest length, that of a data key.
    pub const WIDEST: u16 = 256;

    /// The key of no bits.
    pub const ROOT: Self = Self {
        len: 0,
        w0: 0,
        w1: 0,
        w2: 0,
        w3: 0,
    };

    pub fn root() -> Self
        ensures { result ≡ root_key }
    {
        Self::ROOT
    }

    pub fn data(w0: u64, w1: u64, w2: u64, w3: u64) -> Self
        ensures { result ≡ data_key w0 w1 w2 w3 }
    {
        Self {
            len: Self::WIDEST,
            w0,
            w1,
            w2,
            w3,
        }
    }

    pub fn is_data(self) -> bool
        ensures { result ≡ is_data self }
    {
        self.len == Self::WIDEST
    }

    #[tactic(auto, unfolding(crate::specs::Keys::well_key))]
    pub fn well(self) -> bool
        ensures { result ≡ well_key self }
    {
        let [n0, n1, n2, n3] = self.bits_from_each_word();
        self.len <= Self::WIDEST
            && clean(n0, self.w0)
            && clean(n1, self.w1)
            && clean(n2, self.w2)
            && clean(n3, self.w3)
    }

    /// Whether the key is a proper ancestor of another.
    #[tactic(auto, unfolding(crate::specs::Keys::above))]
    pub fn above(self, o: Self) -> bool
        ensures { result ≡ above self o }
    {
        let [n0, n1, n2, n3] = self.bits_from_each_word();
        self.len < o.len
            && same_top(n0, self.w0, o.w0)
            && same_top(n1, self.w1, o.w1)
            && same_top(n2, self.w2, o.w2)
            && same_top(n3, self.w3, o.w3)
    }

    // How many of the key's bits stand in each word and those after it.
    fn bits_from_each_word(self) -> [u64; 4]
        ensures { result ≡ self.len ∷ (self.len - 64) ∷ (self.len - 128) ∷ (self.len - 192) ∷ [] }
    {
        let n = u64::from(self.len);
        [
            n,
            n.saturating_sub(ONE_WORD),
            n.saturating_sub(TWO_WORDS),
            n.saturating_sub(THREE_WORDS),
        ]
    }

    /// Bit i of a key, 0 or 1. From 256 on it is the last bit again: no caller need test i.
    #[tactic(auto, unfolding(crate::specs::Keys::bit_at))]
    pub fn bit(self, i: u64) -> u64
        ensures { result ≡ bit_at self i }
    {
        match i {
            0..ONE_WORD => (self.w0 >> (ONE_WORD - 1 - i)) % 2,
            ONE_WORD..TWO_WORDS => (self.w1 >> (TWO_WORDS - 1 - i)) % 2,
            TWO_WORDS..THREE_WORDS => (self.w2 >> (THREE_WORDS - 1 - i)) % 2,
            _ => (self.w3 >> (u64::from(Self::WIDEST) - 1).saturating_sub(i)) % 2,
        }
    }

    /// The side of this key that a longer one lies on: left is false, right is true.
    #[tactic(auto, unfolding(crate::specs::Keys::toward))]
    pub fn toward(self, o: Self) -> bool
        ensures { result ≡ toward self o }
    {
        o.bit(u64::from(self.len)) == 1
    }

    /// A data key from its 32 bytes. Inner.
    #[tactic(auto, unfolding(crate::specs::Keys::data_at, words::specs::Numbers::four_at))]
    pub fn read_data(s: &[u8], at: usize) -> Self
        requires { at + 32 ≤ length s.now }
        ensures { result ≡ data_at s.now at }
    {
        let x = four_at(s, at);
        Self::data(x.first, x.second, x.third, x.fourth)
    }

    /// Inner.
    #[tactic(auto, using(crate::proofs::Laws::raw_join), unfolding(crate::specs::Keys::key_at))]
    pub fn read(s: &[u8], at: usize) -> Option<Key>
        requires { at + 34 ≤ length s.now }
        ensures { result ≡ key_at s.now at }
    {
        let k = Self {
            len: read_number::<2>(s, at) as u16,
            ..Self::read_data(s, at + LENGTH_BYTES)
        };
        k.well().then_some(k)
    }

    /// The 32 bytes of a data key, its words alone. Inner.
    #[tactic(auto, unfolding(crate::specs::Keys::data_bytes))]
    pub fn write_data(self, s: &mut [u8], at: usize)
        requires { at + 32 ≤ length s.old }
        ensures { s.new ≡ splice s.old at (data_bytes self) }
    {
        let x = Four {
            first: self.w0,
            second: self.w1,
            third: self.w2,
            fourth: self.w3,
        };
        put_four(s, at, x);
    }

    /// Inner.
    pub fn write(self, s: &mut [u8], at: usize)
        requires { at + 34 ≤ length s.old }
        ensures { s.new ≡ splice s.old at (key_bytes self) }
    {
        put_number::<2>(s, at, u64::from(self.len));
        self.write_data(s, at + LENGTH_BYTES);
    }
}
