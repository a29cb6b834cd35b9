//! Finds a text that stands where no text may.
ghost use Rattle.std.specs.Prelude.{◌≡◌, ◌≤◌, ◌<◌, false, drop, length};
ghost use Rattle.q4_cond.specs.Reading.{compares_texts, is_text, first_marked};
ghost use Rattle.q4_cond.specs.Marks.{next_compares, next_is_side, is_stray, strays};

use crate::tree::{Atom, Node, Operator};
use q4_value::Kind;

fn compares_texts(operator: Operator) -> bool
    ensures { result ≡ compares_texts operator }
{
    match operator {
        Operator::Equal | Operator::Unequal => true,
        _ => false,
    }
}

fn is_text(kinds: &[Kind], atom: &Atom) -> bool
    ensures { result ≡ is_text kinds.now atom.now }
{
    match atom {
        Atom::Column(column) => match kinds.get(*column) {
            Some(Kind::Words) => true,
            Some(Kind::Int) | None => false,
        },
        Atom::Number(_) => false,
        Atom::Text(_) => true,
    }
}

fn next_compares(nodes: &[Node], at: usize) -> bool
    ensures { result ≡ next_compares (drop at nodes.now) }
{
    match nodes.get(at) {
        Some(Node::Binary(operator)) => compares_texts(*operator),
        _ => false,
    }
}

fn next_is_side(kinds: &[Kind], nodes: &[Node], at: usize) -> bool
    requires { at ≤ length nodes.now }
    ensures { result ≡ next_is_side kinds.now (drop at nodes.now) }
{
    match nodes.get(at) {
        Some(Node::Leaf(atom)) => is_text(kinds, atom) && next_compares(nodes, at + 1),
        _ => false,
    }
}

fn is_stray(kinds: &[Kind], nodes: &[Node], at: usize, atom: &Atom, before: bool) -> bool
    requires { at ≤ length nodes.now }
    ensures { result ≡ is_stray kinds.now before atom.now (drop at nodes.now) }
{
    is_text(kinds, atom)
        && !(next_is_side(kinds, nodes, at) || (before && next_compares(nodes, at)))
}

/// The place, of those of the leaves, of the first text that is no side of an `=` or `<>` of two texts.
pub fn first_misplaced(kinds: &[Kind], nodes: &[Node], places: &[u32]) -> Option<u32>
    ensures { result ≡ first_marked (strays kinds.now false nodes.now) places.now }
{
    let mut before = false;
    let mut leaf = 0;
    for (i, node) in nodes.iter().enumerate() {
        before = match node {
            Node::Leaf(atom) => {
                if is_stray(kinds, nodes, i + 1, atom, before) {
                    return places.get(leaf).copied();
                }
                leaf += 1;
                is_text(kinds, atom)
            }
            _ => false,
        };
    }
    None
}
