//! Values: none, a fingerprint, or a node of two sides, each empty or a link. 1, 33, 3, 70 or 137 bytes.
//! Promises upward: a well-formed value is read back from its bytes, and what is read is written as the same bytes; two values are the same by
//! `==`, which is `value_eq`, exactly where they are equal (proofs/Equal). The tests that the entries make on values are in `tree`.
#![tactic(auto)]

ghost use Rattle.std.specs.Prelude.{◌≡◌, ◌+◌, ◌≤◌, length};
ghost use Rattle.words.specs.Splices.{splice};
ghost use Rattle.value.specs.Values.{digest_at, digest_bytes, digest_of_four, four_of_digest, link_at, link_bytes, side_at, side_end, side_bytes, node_at, node_bytes, fingerprint_at, fingerprint_bytes, value_at, value_end, value_bytes, well_side, well_value};

use key::Key;
use words::{Four, four_at, put_four, put_u8};

// The first byte of each kind of value, and of each kind of side.
const NONE_TAG: u8 = 0;

const FINGERPRINT_TAG: u8 = 1;

const NODE_TAG: u8 = 2;

const EMPTY_TAG: u8 = 0;

const LINK_TAG: u8 = 1;

// A tag alone: the value none, and the empty side.
const TAG_BYTES: usize = 1;

const FINGERPRINT_BYTES: usize = 33;

const LINK_BYTES: usize = 68;

/// The widest value: a node of two links.
pub const VALUE_BYTES: usize = 137;

// Where a link's digest and mark stand in it.
const LINK_DIGEST: usize = 35;

const LINK_MARK: usize = 67;

// A link's mark is 0 or this.
const MARKED: u8 = 1;

/// 32 bytes, as four words.
#[derive(Clone, Copy, Debug, PartialEq, Eq)]
pub struct Digest {
    pub d0: u64,
    pub d1: u64,
    pub d2: u64,
    pub d3: u64,
}

/// A side of a node is either empty or a link that carries a key, a digest and a deferred mark.
#[derive(Clone, Copy, Debug, PartialEq, Eq)]
pub enum Side {
    Empty,
    Link {
        key: Key,
        digest: Digest,
        mark: bool,
    },
}

#[derive(Clone, Copy, Debug, PartialEq, Eq)]
pub struct Node {
    pub left: Side,
    pub right: Side,
}

#[derive(Clone, Copy, Debug, PartialEq, Eq)]
pub enum Value {
    None,
    Fingerprint(Digest),
    Node(Node),
}

impl From<Four> for Digest {
    ghost from_gives = { λ x d. d ≡ digest_of_four x };

    fn from(x: Four) -> Self {
        Self {
            d0: x.first,
            d1: x.second,
            d2: x.third,
            d3: x.fourth,
        }
    }
}

impl From<Digest> for Four {
    ghost from_gives = { λ d x. x ≡ four_of_digest d };

    fn from(d: Digest) -> Self {
        Four {
            first: d.d0,
            second: d.d1,
            third: d.d2,
            fourth: d.d3,
        }
    }
}

impl Digest {
    /// Inner.
    #[tactic(auto, unfolding(crate::specs::Values::digest_at, words::specs::Numbers::four_at))]
    pub fn read(s: &[u8], at: usize) -> Self
        requires { at + 32 ≤ length s.now }
        ensures { result ≡ digest_at s.now at }
    {
        four_at(s, at).into()
    }

    /// Inner.
    #[tactic(auto, unfolding(crate::specs::Values::digest_bytes))]
    pub fn write(self, s: &mut [u8], at: usize)
        requires { at + 32 ≤ length s.old }
        ensures { s.new ≡ splice s.old at (digest_bytes self) }
    {
        put_four(s, at, self.into());
    }
}

// A link, whose tag has been looked at. Inner.
#[tactic(auto, unfolding(crate::specs::Values::link_at))]
fn read_link(s: &[u8], at: usize) -> Option<(Side, usize)>
    requires { at + 68 ≤ length s.now }
    ensures { (result ≡ link_at s.now at) × (side_end result ≤ 68) }
{
    let key = Key::read(s, at + TAG_BYTES)?;
    let mark = s[at + LINK_MARK];
    if key.len == 0 {
        return None;
    }
    if MARKED < mark {
        return None;
    }
    let side = Side::Link {
        key,
        digest: Digest::read(s, at + LINK_DIGEST),
        mark: mark == MARKED,
    };
    Some((side, LINK_BYTES))
}

/// A side, and how many bytes it takes. Here and in `read_value` each arm returns by itself: where arms join, what they made is copied once more.
/// Inner.
#[tactic(auto, unfolding(crate::specs::Values::side_at))]
pub fn read_side(s: &[u8], at: usize) -> Option<(Side, usize)>
    requires { at ≤ length s.now }
    ensures { (result ≡ side_at s.now at) × (at + side_end result ≤ length s.now) }
{
    match *s.get(at)? {
        EMPTY_TAG => return Some((Side::Empty, TAG_BYTES)),
        LINK_TAG if LINK_BYTES <= s.len() - at => return read_link(s, at),
        _ => return None,
    }
}

// A node, whose tag has been looked at. A `?` would copy each side once more. Inner.
#[tactic(auto, unfolding(crate::specs::Values::node_at))]
fn read_node(s: &[u8], at: usize) -> Option<(Value, usize)>
    requires { at + 1 ≤ length s.now }
    ensures { (result ≡ node_at s.now at) × (at + value_end result ≤ length s.now) }
{
    let Some((left, n)) = read_side(s, at + TAG_BYTES) else {
        return None;
    };
    let Some((right, m)) = read_side(s, at + TAG_BYTES + n) else {
        return None;
    };
    Some((Value::Node(Node { left, right }), TAG_BYTES + n + m))
}

/// A value, and how many bytes it takes. Inner.
#[tactic(auto, unfolding(crate::specs::Values::value_at, crate::specs::Values::fingerprint_at))]
pub fn read_value(s: &[u8], at: usize) -> Option<(Value, usize)>
    requires { at ≤ length s.now }
    ensures { (result ≡ value_at s.now at) × (at + value_end result ≤ length s.now) }
{
    match *s.get(at)? {
        NONE_TAG => return Some((Value::None, TAG_BYTES)),
        FINGERPRINT_TAG if FINGERPRINT_BYTES <= s.len() - at => {
            let d = Digest::read(s, at + TAG_BYTES);
            return Some((Value::Fingerprint(d), FINGERPRINT_BYTES));
        }
        NODE_TAG => return read_node(s, at),
        _ => return None,
    }
}

#[tactic(auto, unfolding(crate::specs::Values::well_side))]
fn well_side(x: Side) -> bool
    ensures { result ≡ well_side x }
{
    match x {
        Side::Empty => true,
        Side::Link { key, .. } => key.well() && 0 < key.len,
    }
}

/// Whether the bytes of a value would be read back: every link names a well-formed key, and not the root.
#[tactic(auto, unfolding(crate::specs::Values::well_value))]
pub fn well_value(x: Value) -> bool
    ensures { result ≡ well_value x }
{
    match x {
        Value::None | Value::Fingerprint(_) => true,
        Value::Node(n) => well_side(n.left) && well_side(n.right),
    }
}

#[tactic(auto, using(crate::proofs::Laws::link_length), unfolding(crate::specs::Values::side_bytes))]
fn side_length(x: Side) -> usize
    ensures { (result ≡ length (side_bytes x)) × (result ≤ 68) }
{
    match x {
        Side::Empty => TAG_BYTES,
        Side::Link { .. } => LINK_BYTES,
    }
}

/// How many bytes a value takes.
#[tactic(auto, using(crate::proofs::Laws::fingerprint_length, crate::proofs::Laws::node_length), unfolding(crate::specs::Values::value_bytes))]
pub fn value_length(x: Value) -> usize
    ensures { (result ≡ length (value_bytes x)) × (result ≤ 137) }
{
    match x {
        Value::None => TAG_BYTES,
        Value::Fingerprint(_) => FINGERPRINT_BYTES,
        Value::Node(n) => TAG_BYTES + side_length(n.left) + side_length(n.right),
    }
}

// Inner.
fn write_link(k: Key, d: Digest, m: bool, s: &mut [u8], at: usize)
    requires { at + 68 ≤ length s.old }
    ensures { s.new ≡ splice s.old at (link_bytes k d m) }
{
    put_u8(s, at, LINK_TAG);
    k.write(s, at + TAG_BYTES);
    d.write(s, at + LINK_DIGEST);
    put_u8(s, at + LINK_MARK, u8::from(m));
}

/// A side, and how many bytes it takes. Inner.
#[tactic(auto, using(crate::proofs::Laws::link_length), unfolding(crate::specs::Values::side_bytes))]
pub fn write_side(v: Side, s: &mut [u8], at: usize) -> usize
    requires { at + length (side_bytes v) ≤ length s.old }
    ensures { (s.new ≡ splice s.old at (side_bytes v)) × (result ≡ length (side_bytes v)) }
{
    match v {
        Side::Empty => {
            put_u8(s, at, EMPTY_TAG);
            TAG_BYTES
        }
        Side::Link { key, digest, mark } => {
            write_link(key, digest, mark, s, at);
            LINK_BYTES
        }
    }
}

// A fingerprint's value, and how many bytes it takes. Inner.
#[tactic(auto, using(crate::proofs::Laws::fingerprint_length))]
fn write_fingerprint(d: Digest, s: &mut [u8], at: usize) -> usize
    requires { at + length (fingerprint_bytes d) ≤ length s.old }
    ensures { (s.new ≡ splice s.old at (fingerprint_bytes d)) × (result ≡ length (fingerprint_bytes d)) }
{
    put_u8(s, at, FINGERPRINT_TAG);
    d.write(s, at + TAG_BYTES);
    FINGERPRINT_BYTES
}

// A node, and how many bytes it takes. Inner.
#[tactic(auto, using(crate::proofs::Laws::node_length))]
fn write_node(l: Side, r: Side, s: &mut [u8], at: usize) -> usize
    requires { at + length (node_bytes l r) ≤ length s.old }
    ensures { (s.new ≡ splice s.old at (node_bytes l r)) × (result ≡ length (node_bytes l r)) }
{
    put_u8(s, at, NODE_TAG);
    let a = write_side(l, s, at + TAG_BYTES);
    let b = write_side(r, s, at + TAG_BYTES + a);
    TAG_BYTES + a + b
}

/// A value, and how many bytes it takes. Inner.
#[tactic(auto, unfolding(crate::specs::Values::value_bytes))]
pub fn write_value(v: Value, s: &mut [u8], at: usize) -> usize
    requires { at + length (value_bytes v) ≤ length s.old }
    ensures { (s.new ≡ splice s.old at (value_bytes v)) × (result ≡ length (value_bytes v)) }
{
    match v {
        Value::None => {
            put_u8(s, at, NONE_TAG);
            TAG_BYTES
        }
        Value::Fingerprint(d) => write_fingerprint(d, s, at),
        Value::Node(n) => write_node(n.left, n.right, s, at),
    }
}
