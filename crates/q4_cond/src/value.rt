//! The value of a condition for a row.
ghost use Rattle.std.specs.Prelude.{◌≡◌, ◌<◌, ◌≤◌, ◌+◌, ◌+ℤ◌, ◌-ℤ◌, ◌*ℤ◌, neg_ℤ, [], ◌∷◌, length, MatchOption};
ghost use Rattle.arrayvec.specs.ArrayVec.{array_vec_len};
ghost use Rattle.q4_cond.specs.Values.{in_range, quotient, remainder, number, truth, is_zero, is_true, is_absent, and_of, or_of, not_of, minus_of, two_of, cell, atom_of, Whole};
ghost use Rattle.q4_cond.specs.Execution.{meaning_of, meanings, execute_node, execute, verdict, count_after, most_operands};

use crate::tree::{Atom, Node, Operator};
use arrayvec::ArrayVec;
use q4_value::{Row, Value};

/// An operand that is complete.
#[derive(Clone, Copy, Default)]
pub enum Operand<'a> {
    /// What is absent: a null, or what has no result.
    #[default]
    Nothing,
    Integer(i128),
    Slice(&'a [u8]),
}

fn divided(x: i128, y: i128) -> Option<i128>
    ensures { result ≡ quotient x y }
{
    if y == 0 { None } else { x.checked_div(y) }
}

/// The remainder by -1 is 0, of the least number too.
fn remaining(x: i128, y: i128) -> Option<i128>
    ensures { result ≡ remainder x y }
{
    if y == 0 {
        None
    } else if y == -1 {
        Some(0)
    } else {
        Some(x % y)
    }
}

fn added(x: i128, y: i128) -> Option<i128>
    ensures { result ≡ in_range (x +ℤ y) }
{
    x.checked_add(y)
}

fn subtracted(x: i128, y: i128) -> Option<i128>
    ensures { result ≡ in_range (x -ℤ y) }
{
    x.checked_sub(y)
}

fn multiplied(x: i128, y: i128) -> Option<i128>
    ensures { result ≡ in_range (x *ℤ y) }
{
    x.checked_mul(y)
}

fn negated(x: i128) -> Option<i128>
    ensures { result ≡ in_range (neg_ℤ x) }
{
    x.checked_neg()
}

impl<'a> Operand<'a> {
    fn of_number(found: Option<i128>) -> Operand<'a>
        ensures { meaning_of result ≡ number found }
    {
        match found {
            Some(number) => Operand::Integer(number),
            None => Operand::Nothing,
        }
    }
}

fn truth<'a>(holds: bool) -> Operand<'a>
    ensures { meaning_of result ≡ truth holds }
{
    Operand::Integer(if holds { 1 } else { 0 })
}

fn is_zero(operand: Operand) -> bool
    ensures { result ≡ is_zero (meaning_of operand.entry) }
{
    match operand {
        Operand::Integer(number) => number == 0,
        Operand::Nothing | Operand::Slice(_) => false,
    }
}

fn is_true(operand: Operand) -> bool
    ensures { result ≡ is_true (meaning_of operand.entry) }
{
    match operand {
        Operand::Integer(number) => number != 0,
        Operand::Nothing | Operand::Slice(_) => false,
    }
}

fn is_absent(operand: Operand) -> bool
    ensures { result ≡ is_absent (meaning_of operand.entry) }
{
    match operand {
        Operand::Integer(_) => false,
        Operand::Nothing | Operand::Slice(_) => true,
    }
}

fn both<'a>(left: Operand<'a>, right: Operand<'a>) -> Operand<'a>
    ensures { meaning_of result ≡ and_of (meaning_of left.entry) (meaning_of right.entry) }
{
    if is_zero(left) || is_zero(right) {
        truth(false)
    } else if is_absent(left) || is_absent(right) {
        Operand::Nothing
    } else {
        truth(true)
    }
}

fn either<'a>(left: Operand<'a>, right: Operand<'a>) -> Operand<'a>
    ensures { meaning_of result ≡ or_of (meaning_of left.entry) (meaning_of right.entry) }
{
    if is_true(left) || is_true(right) {
        truth(true)
    } else if is_absent(left) || is_absent(right) {
        Operand::Nothing
    } else {
        truth(false)
    }
}

fn inverted<'a>(operand: Operand<'a>) -> Operand<'a>
    ensures { meaning_of result ≡ not_of (meaning_of operand.entry) }
{
    if is_absent(operand) {
        Operand::Nothing
    } else {
        truth(is_zero(operand))
    }
}

fn opposite<'a>(operand: Operand<'a>) -> Operand<'a>
    ensures { meaning_of result ≡ minus_of (meaning_of operand.entry) }
{
    match operand {
        Operand::Integer(number) => Operand::of_number(negated(number)),
        Operand::Nothing | Operand::Slice(_) => Operand::Nothing,
    }
}

fn equal<'a>(left: Operand<'a>, right: Operand<'a>) -> Operand<'a>
    ensures { meaning_of result ≡ two_of Operator.Equal (meaning_of left.entry) (meaning_of right.entry) }
{
    match (left, right) {
        (Operand::Integer(x), Operand::Integer(y)) => truth(x == y),
        (Operand::Slice(s), Operand::Slice(t)) => truth(s == t),
        _ => Operand::Nothing,
    }
}

fn unequal<'a>(left: Operand<'a>, right: Operand<'a>) -> Operand<'a>
    ensures { meaning_of result ≡ two_of Operator.Unequal (meaning_of left.entry) (meaning_of right.entry) }
{
    match (left, right) {
        (Operand::Integer(x), Operand::Integer(y)) => truth(x != y),
        (Operand::Slice(s), Operand::Slice(t)) => truth(s != t),
        _ => Operand::Nothing,
    }
}

/// An operator on two numbers.
fn of_numbers<'a>(operator: Operator, x: i128, y: i128) -> Operand<'a>
    ensures { meaning_of result ≡ two_of operator (Whole x) (Whole y) }
{
    match operator {
        Operator::Or => either(Operand::Integer(x), Operand::Integer(y)),
        Operator::And => both(Operand::Integer(x), Operand::Integer(y)),
        Operator::Equal => truth(x == y),
        Operator::Unequal => truth(x != y),
        Operator::Below => truth(x < y),
        Operator::AtMost => truth(x <= y),
        Operator::Above => truth(x > y),
        Operator::AtLeast => truth(x >= y),
        Operator::Add => Operand::of_number(added(x, y)),
        Operator::Subtract => Operand::of_number(subtracted(x, y)),
        Operator::Multiply => Operand::of_number(multiplied(x, y)),
        Operator::Divide => Operand::of_number(divided(x, y)),
        Operator::Remainder => Operand::of_number(remaining(x, y)),
    }
}

/// An operator on two operands.
fn combined<'a>(operator: Operator, left: Operand<'a>, right: Operand<'a>) -> Operand<'a>
    ensures { meaning_of result ≡ two_of operator (meaning_of left.entry) (meaning_of right.entry) }
{
    if let (Operand::Integer(x), Operand::Integer(y)) = (left, right) {
        return of_numbers(operator, x, y);
    }
    match operator {
        Operator::Or => either(left, right),
        Operator::And => both(left, right),
        Operator::Equal => equal(left, right),
        Operator::Unequal => unequal(left, right),
        _ => Operand::Nothing,
    }
}

fn atom_operand<'a>(atom: &'a Atom, row: &'a Row) -> Operand<'a>
    ensures { meaning_of result ≡ atom_of row.now atom.now }
{
    match atom {
        Atom::Column(column) => match row.at(*column) {
            Some(Value::Int(number)) => Operand::Integer(i128::from(*number)),
            Some(Value::Word(words)) => Operand::Slice(words.as_str().as_bytes()),
            Some(Value::Null) | None => Operand::Nothing,
        },
        Atom::Number(number) => Operand::Integer(*number),
        Atom::Text(text) => Operand::Slice(text.as_slice()),
    }
}

fn push<'a, const N: usize>(stack: &mut ArrayVec<Operand<'a>, N>, operand: Operand<'a>)
    requires { array_vec_len stack.old < N }
    ensures pushed { meanings stack.new.items ≡ meaning_of operand.entry ∷ meanings stack.old.items }
    ensures len { array_vec_len stack.new ≡ array_vec_len stack.old + 1 }
{
    stack.push(operand);
}

fn pop<'a, const N: usize>(stack: &mut ArrayVec<Operand<'a>, N>) -> Option<Operand<'a>>
    ensures popped { MatchOption result ((meanings stack.old.items ≡ []) × (meanings stack.new.items ≡ [])) (λ operand. meanings stack.old.items ≡ meaning_of operand ∷ meanings stack.new.items) }
    ensures len { MatchOption result (array_vec_len stack.new ≡ 0) (λ _. array_vec_len stack.new + 1 ≡ array_vec_len stack.old) }
{
    stack.pop()
}

/// Takes a node's operands from the stack, and puts its value there.
fn execute_node<'a, const N: usize>(
    stack: &mut ArrayVec<Operand<'a>, N>,
    node: &'a Node,
    row: &'a Row,
)
    requires { count_after node.now (array_vec_len stack.old) ≤ N }
    ensures done { meanings stack.new.items ≡ execute_node row.now node.now (meanings stack.old.items) }
    ensures len { array_vec_len stack.new ≡ count_after node.now (array_vec_len stack.old) }
{
    match node {
        Node::Leaf(atom) => push(stack, atom_operand(atom, row)),
        Node::Binary(operator) => {
            let Some(right) = pop(stack) else {
                return;
            };
            let Some(left) = pop(stack) else {
                return;
            };
            push(stack, combined(*operator, left, right));
        }
        Node::Inverted => {
            if let Some(operand) = pop(stack) {
                push(stack, inverted(operand));
            }
        }
        Node::Negated => {
            if let Some(operand) = pop(stack) {
                push(stack, opposite(operand));
            }
        }
    }
}

/// How many operands are complete behind a node.
fn count_after(node: &Node, count: usize) -> usize
    requires { count ≤ 1024 }
    ensures { result ≡ count_after node.now count }
{
    match node {
        Node::Leaf(_) => count + 1,
        Node::Binary(_) => count.saturating_sub(1),
        Node::Inverted | Node::Negated => count,
    }
}

/// The most operands that are complete at once while the nodes are executed.
pub fn most_operands(nodes: &[Node]) -> usize
    requires { length nodes.now ≤ 1024 }
    ensures most { result ≡ most_operands nodes.now 0 }
    ensures few { result ≤ 1024 }
{
    let mut count = 0;
    let mut most = 0;
    for node in nodes {
        count = count_after(node, count);
        most = count.max(most);
    }
    most
}

/// Whether the value of these nodes is present and not 0, on a stack of room for N operands.
pub fn execute<'a, const N: usize>(nodes: &'a [Node], row: &'a Row) -> bool
    requires room { most_operands nodes.now 0 ≤ N }
    requires small { N ≤ 1024 }
    ensures { result ≡ verdict (execute row.now nodes.now []) }
{
    let mut stack: ArrayVec<Operand<'a>, N> = ArrayVec::new();
    for node in nodes {
        execute_node(&mut stack, node, row);
    }
    match pop(&mut stack) {
        Some(operand) => is_true(operand),
        None => true,
    }
}
