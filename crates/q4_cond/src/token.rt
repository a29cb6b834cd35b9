//! Cuts a condition's text into tokens.
ghost use Rattle.std.specs.Option.{SomeIff};
ghost use Rattle.std.specs.Prelude.{false, ◌+◌, ◌*◌, ◌^◌, ◌≡◌, ◌<◌, ◌≤◌, [], ◌∷◌, IfOk, OnOk, length, take, slice_index};
ghost use Rattle.q4_cond.specs.Tokens.{is_letter, is_digit, is_word_byte, word_run, place_of, names_of, word_token, number_token, numeral, digits_from, quoted, text_front, sign_front, front_of};

use crate::tree::{Atom, Front, Operator, Token};
use q4_value::{Bytes, Column, NoMemory};
use std::alloc::Global;

fn is_letter(byte: u8) -> bool
    ensures { result ≡ is_letter byte }
{
    byte >= b'a' && byte <= b'z'
}

fn is_digit(byte: u8) -> bool
    ensures { result ≡ is_digit byte }
{
    byte >= b'0' && byte <= b'9'
}

pub fn is_word_byte(byte: u8) -> bool
    ensures { result ≡ is_word_byte byte }
{
    is_letter(byte) || is_digit(byte) || byte == b'_'
}

/// How many bytes the run of letters, digits and `_` at the front has.
fn run_len(rest: &[u8]) -> usize
    ensures in_range { result ≤ length rest.now }
    ensures run { word_run rest.now ≡ take result rest.now }
{
    for (i, byte) in rest.iter().enumerate() {
        if !is_word_byte(*byte) {
            return i;
        }
    }
    rest.len()
}

/// The place of the first column of this name, or the number of columns.
fn column_place(columns: &[Column], word: &[u8]) -> usize
    ensures { result ≡ place_of (names_of columns.now) word.now }
{
    for (i, column) in columns.iter().enumerate() {
        if column.name.as_str().as_bytes() == word {
            return i;
        }
    }
    columns.len()
}

fn word_token(columns: &[Column], word: &[u8]) -> Token
    ensures { result ≡ word_token (names_of columns.now) word.now }
{
    if word == b"or".as_slice() {
        Token::Sign(Operator::Or)
    } else if word == b"and".as_slice() {
        Token::Sign(Operator::And)
    } else if word == b"not".as_slice() {
        Token::Not
    } else {
        Token::Operand(Atom::Column(column_place(columns, word)))
    }
}

/// The number that a digit more makes, if it fits.
fn with_digit(value: u128, digit: u8) -> Option<u128>
    ensures { SomeIff result (10 * value + digit < 2 ^ 128) (10 * value + digit) }
{
    value.checked_mul(10)?.checked_add(u128::from(digit))
}

/// The number of these digits, if they are digits and it fits 128 bits.
fn digits_value(run: &[u8]) -> Option<u128>
    ensures { numeral result ≡ numeral (digits_from 0 run.now) }
{
    let mut value: u128 = 0;
    for byte in run {
        if !is_digit(*byte) {
            return None;
        }
        match with_digit(value, *byte - b'0') {
            Some(longer) => value = longer,
            None => return None,
        }
    }
    Some(value)
}

fn sign_front(byte: u8, next: u8) -> Front
    ensures { result ≡ sign_front byte next }
{
    let (token, size) = match (byte, next) {
        (b'=', _) => (Token::Sign(Operator::Equal), 1),
        (b'<', b'>') => (Token::Sign(Operator::Unequal), 2),
        (b'<', b'=') => (Token::Sign(Operator::AtMost), 2),
        (b'<', _) => (Token::Sign(Operator::Below), 1),
        (b'>', b'=') => (Token::Sign(Operator::AtLeast), 2),
        (b'>', _) => (Token::Sign(Operator::Above), 1),
        (b'+', _) => (Token::Sign(Operator::Add), 1),
        (b'-', _) => (Token::Sign(Operator::Subtract), 1),
        (b'*', _) => (Token::Sign(Operator::Multiply), 1),
        (b'/', _) => (Token::Sign(Operator::Divide), 1),
        (b'%', _) => (Token::Sign(Operator::Remainder), 1),
        (b'(', _) => (Token::Open, 1),
        (b')', _) => (Token::Close, 1),
        _ => (Token::Bad, 1),
    };
    Front { token, size }
}

/// A run that begins with a digit.
fn number_token(run: &[u8]) -> Token
    requires { 0 < length run.now }
    ensures { result ≡ number_token run.now }
{
    if run[0] == b'0' && run.len() > 1 {
        return Token::Bad;
    }
    match digits_value(run) {
        Some(value) if value <= i128::MAX as u128 => Token::Operand(Atom::Number(value as i128)),
        _ => Token::Bad,
    }
}

/// What follows a text's first quote.
fn text_front(alloc: Global, rest: &[u8]) -> Result<Front, NoMemory>
    requires { length rest.now < 2 ^ 32 }
    ensures front { IfOk result (λ front. front ≡ text_front rest.now (quoted false rest.now)) }
    ensures at_least_one { IfOk result (λ front. 0 < front.size) }
    ensures in_range { IfOk result (λ front. front.size ≤ length rest.now + 1) }
{
    let mut text = Bytes::new(alloc);
    let mut closed = false;
    for (i, byte) in rest.iter().enumerate() {
        if *byte != b'\'' {
            if closed {
                return Ok(text_token(text, i + 1));
            }
            text.push(&[*byte])?;
        } else {
            if closed {
                text.push(&[*byte])?;
            }
            closed = !closed;
        }
    }
    if closed {
        Ok(text_token(text, rest.len() + 1))
    } else {
        Ok(Front {
            token: Token::Bad,
            size: rest.len() + 1,
        })
    }
}

fn text_token(text: Bytes, size: usize) -> Front
    ensures token { result.token ≡ Token.Operand (Atom.Text text) }
    ensures size { result.size ≡ size }
{
    Front {
        token: Token::Operand(Atom::Text(text)),
        size,
    }
}

/// The longest token at the front of a text that begins with no space.
pub fn front(alloc: Global, columns: &[Column], rest: &[u8]) -> Result<Front, NoMemory>
    requires some { 0 < length rest.now }
    requires short { length rest.now ≤ 1024 }
    ensures front { IfOk result (λ front. front ≡ front_of (names_of columns.now) rest.now) }
    ensures at_least_one { IfOk result (λ front. 0 < front.size) }
    ensures in_range { IfOk result (λ front. front.size ≤ length rest.now) }
{
    let first = rest[0];
    if is_letter(first) || is_digit(first) {
        let run = &rest[..run_len(rest)];
        let token = if is_letter(first) {
            word_token(columns, run)
        } else {
            number_token(run)
        };
        return Ok(Front {
            token,
            size: run.len(),
        });
    }
    if first == b'\'' {
        return text_front(alloc, &rest[1..]);
    }
    let next = if rest.len() > 1 { rest[1] } else { 0 };
    Ok(sign_front(first, next))
}
