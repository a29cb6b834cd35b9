//! Whether two lists of nodes are one.
ghost use Rattle.std.specs.Prelude.{◌≡◌};
ghost use Rattle.std.specs.Bool.{Decides};

use crate::tree::{Atom, Node};

fn same_atom(one: &Atom, other: &Atom) -> bool
    ensures { Decides result (one.now ≡ other.now) }
{
    match (one, other) {
        (Atom::Column(column), Atom::Column(with)) => *column == *with,
        (Atom::Number(number), Atom::Number(with)) => *number == *with,
        (Atom::Text(text), Atom::Text(with)) => text.as_slice() == with.as_slice(),
        _ => false,
    }
}

fn same_node(one: &Node, other: &Node) -> bool
    ensures { Decides result (one.now ≡ other.now) }
{
    match (one, other) {
        (Node::Leaf(atom), Node::Leaf(with)) => same_atom(atom, with),
        (Node::Binary(operator), Node::Binary(with)) => *operator == *with,
        (Node::Inverted, Node::Inverted) | (Node::Negated, Node::Negated) => true,
        _ => false,
    }
}

/// Whether the nodes are the same, one after the other.
pub fn same_nodes(one: &[Node], other: &[Node]) -> bool
    ensures { Decides result (one.now ≡ other.now) }
{
    if one.len() != other.len() {
        return false;
    }
    for i in 0..one.len() {
        if !same_node(&one[i], &other[i]) {
            return false;
        }
    }
    true
}
