//! The tests that the entries' checks make on values and nodes, and a node with another side.
//! Promises upward: each is its definition of `value`.
#![tactic(auto)]

ghost use Rattle.std.specs.Prelude.{◌≡◌};
ghost use Rattle.value.specs.Values.{is_node, fits, bare_node, is_first, side_of, with_side};

use key::Key;
use value::{Node, Side, Value};

pub fn is_node(v: Value) -> bool
    ensures { result ≡ is_node v }
{
    matches!(v, Value::Node(_))
}

/// Whether the value's kind fits the key.
#[tactic(auto, unfolding(value::specs::Values::fits))]
pub fn fits(k: Key, v: Value) -> bool
    ensures { result ≡ fits k v }
{
    k.is_data() != is_node(v)
}

pub fn bare_node() -> Node
    ensures { result ≡ bare_node }
{
    Node {
        left: Side::Empty,
        right: Side::Empty,
    }
}

/// A first value: none, or both sides empty.
#[tactic(auto, unfolding(value::specs::Values::is_first))]
pub fn is_first(v: Value) -> bool
    ensures { result ≡ is_first v }
{
    match v {
        Value::None => true,
        Value::Fingerprint(_) => false,
        Value::Node(n) => n == bare_node(),
    }
}

/// A node's side, right or left.
pub fn side_of(n: Node, right: bool) -> Side
    ensures { result ≡ side_of n right }
{
    if right { n.right } else { n.left }
}

/// A node with another side there.
pub fn with_side(n: Node, right: bool, x: Side) -> Node
    ensures { result ≡ with_side n right x }
{
    if right {
        Node { right: x, ..n }
    } else {
        Node { left: x, ..n }
    }
}
