//! Writes a condition as a text.
ghost use Rattle.std.specs.Prelude.{◌≡◌, [], ◌∷◌, ◌++◌, IfOk, OnOk, MatchOption, reverse};
ghost use Rattle.q4_cond.specs.Tokens.{names_of, is_word_byte};
ghost use Rattle.q4_cond.specs.Shown.{doubled, atom_text, sign_text, spaced, wrapped, two_text, not_text, minus_text, write_node, write_nodes, first_text};

use crate::token::is_word_byte;
use crate::tree::{Atom, Node, Operator};
use itoa::Buffer;
use q4_value::{Bytes, Column, NoMemory};
use std::alloc::Global;

/// The text of a phrase, and its level in the grammar.
#[derive(Drop)]
pub struct Shown {
    pub text: Bytes,
    pub level: usize,
}

fn sign_text(operator: Operator) -> &'static [u8]
    ensures { result.now ≡ sign_text operator }
{
    match operator {
        Operator::Or => b"or",
        Operator::And => b"and",
        Operator::Equal => b"=",
        Operator::Unequal => b"<>",
        Operator::Below => b"<",
        Operator::AtMost => b"<=",
        Operator::Above => b">",
        Operator::AtLeast => b">=",
        Operator::Add => b"+",
        Operator::Subtract => b"-",
        Operator::Multiply => b"*",
        Operator::Divide => b"/",
        Operator::Remainder => b"%",
    }
}

/// Puts a piece behind a text, with a space between two words or numbers.
fn append(text: &mut Bytes, piece: &[u8]) -> Result<(), NoMemory>
    ensures { OnOk result (text.new ≡ spaced text.old piece.now) }
{
    let so_far = text.as_slice();
    let last = if so_far.len() > 0 {
        so_far[so_far.len() - 1]
    } else {
        0
    };
    let next = if piece.len() > 0 { piece[0] } else { 0 };
    if is_word_byte(last) && is_word_byte(next) {
        text.push(b" ")?;
    }
    text.push(piece)
}

fn wrap(alloc: Global, shown: Shown, level: usize) -> Result<Bytes, NoMemory>
    ensures { IfOk result (λ text. text ≡ wrapped level shown) }
{
    if level <= shown.level {
        return Ok(shown.text);
    }
    let mut text = Bytes::new(alloc);
    text.push(b"(")?;
    text.push(shown.text.as_slice())?;
    text.push(b")")?;
    Ok(text)
}

fn push_doubled(text: &mut Bytes, bytes: &[u8]) -> Result<(), NoMemory>
    ensures { OnOk result (text.new ≡ text.old ++ doubled bytes.now) }
{
    for byte in bytes {
        if *byte == b'\'' {
            text.push(b"'")?;
        }
        text.push(&[*byte])?;
    }
    Ok(())
}

fn push_atom(text: &mut Bytes, atom: &Atom, columns: &[Column]) -> Result<(), NoMemory>
    ensures { OnOk result (text.new ≡ text.old ++ atom_text (names_of columns.now) atom.now) }
{
    match atom {
        Atom::Column(column) => match columns.get(*column) {
            Some(column) => text.push(column.name.as_str().as_bytes()),
            None => Ok(()),
        },
        Atom::Number(number) => {
            let mut buffer = Buffer::new();
            text.push(buffer.format(*number).as_bytes())
        }
        Atom::Text(bytes) => {
            text.push(b"'")?;
            push_doubled(text, bytes.as_slice())?;
            text.push(b"'")
        }
    }
}

fn two_text(alloc: Global, operator: Operator, left: Shown, right: Shown) -> Result<Shown, NoMemory>
    ensures { IfOk result (λ shown. shown ≡ two_text operator left right) }
{
    let mut text = wrap(alloc, left, operator.left_level())?;
    append(&mut text, sign_text(operator))?;
    let right = wrap(alloc, right, operator.level() + 1)?;
    append(&mut text, right.as_slice())?;
    let level = operator.level();
    Ok(Shown { text, level })
}

fn not_text(alloc: Global, operand: Shown) -> Result<Shown, NoMemory>
    ensures { IfOk result (λ shown. shown ≡ not_text operand) }
{
    let mut text = Bytes::new(alloc);
    text.push(b"not")?;
    let operand = wrap(alloc, operand, 3)?;
    append(&mut text, operand.as_slice())?;
    Ok(Shown { text, level: 3 })
}

fn minus_text(alloc: Global, operand: Shown) -> Result<Shown, NoMemory>
    ensures { IfOk result (λ shown. shown ≡ minus_text operand) }
{
    let mut text = Bytes::new(alloc);
    text.push(b"-")?;
    let operand = wrap(alloc, operand, 7)?;
    text.push(operand.as_slice())?;
    Ok(Shown { text, level: 7 })
}

fn leaf_text(alloc: Global, atom: &Atom, columns: &[Column]) -> Result<Shown, NoMemory>
    ensures text { IfOk result (λ shown. shown.text ≡ atom_text (names_of columns.now) atom.now) }
    ensures level { IfOk result (λ shown. shown.level ≡ 8) }
{
    let mut text = Bytes::new(alloc);
    push_atom(&mut text, atom, columns)?;
    Ok(Shown { text, level: 8 })
}

fn push(stack: &mut Vec<Shown>, shown: Shown) -> Result<(), NoMemory>
    ensures { OnOk result (reverse stack.new.items ≡ shown ∷ reverse stack.old.items) }
{
    match stack.push(shown) {
        Ok(()) => Ok(()),
        Err(_) => Err(NoMemory),
    }
}

fn pop(stack: &mut Vec<Shown>) -> Option<Shown>
    ensures { MatchOption result ((reverse stack.old.items ≡ []) × (reverse stack.new.items ≡ [])) (λ shown. reverse stack.old.items ≡ shown ∷ reverse stack.new.items) }
{
    stack.pop()
}

/// Takes the texts of a node's operands from the stack, and puts its own there.
fn write_node(
    alloc: Global,
    stack: &mut Vec<Shown>,
    node: &Node,
    columns: &[Column],
) -> Result<(), NoMemory>
    ensures { OnOk result (reverse stack.new.items ≡ write_node (names_of columns.now) node.now (reverse stack.old.items)) }
{
    match node {
        Node::Leaf(atom) => push(stack, leaf_text(alloc, atom, columns)?),
        Node::Binary(operator) => {
            let Some(right) = pop(stack) else {
                return Ok(());
            };
            let Some(left) = pop(stack) else {
                return Ok(());
            };
            push(stack, two_text(alloc, *operator, left, right)?)
        }
        Node::Inverted => match pop(stack) {
            Some(operand) => push(stack, not_text(alloc, operand)?),
            None => Ok(()),
        },
        Node::Negated => match pop(stack) {
            Some(operand) => push(stack, minus_text(alloc, operand)?),
            None => Ok(()),
        },
    }
}

/// The bytes of the text of these nodes.
pub fn write_nodes(alloc: Global, nodes: &[Node], columns: &[Column]) -> Result<Bytes, NoMemory>
    ensures { IfOk result (λ text. text ≡ first_text (write_nodes (names_of columns.now) nodes.now [])) }
{
    let mut stack = Vec::new(alloc);
    for node in nodes {
        write_node(alloc, &mut stack, node, columns)?;
    }
    match pop(&mut stack) {
        Some(shown) => Ok(shown.text),
        None => Ok(Bytes::new(alloc)),
    }
}
