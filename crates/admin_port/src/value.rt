// Values in a statement.
ghost use Rattle.std.specs.Prelude.{◌≡◌, ◌++◌, ◌<◌, length, IfOk};
ghost use Rattle.admin_port.specs.Faults.{Gives};
ghost use Rattle.admin_port.specs.Values.{undone, quoted_text, value_of};

use crate::Fault;
use mx_base::{Bytes, OutOfMemory};
use sql_tokens::{Token, TokenKind, bytes_of, inside, same_text};
use std::alloc::Global;

/// A value as it is typed.
#[derive(Drop)]
pub enum Value {
    /// A number, as it is spelled.
    Number(Bytes),
    /// A quoted text, its escapes undone.
    Text(Bytes),
    /// No value.
    Null,
}

// What an escaped text denotes at its front, and what stands behind that (MySQL Reference Manual, "String Literals").
fn first_undone(quote: u8, left: &[u8]) -> (&[u8], &[u8])
    requires { 0 < length left.now }
    ensures denotes { undone quote left.now ≡ result.0.now ++ undone quote result.1.now }
    ensures shorter { length result.1.now < length left.now }
{
    match left {
        [b'\\', b'0', rest @ ..] => (b"\0", rest),
        [b'\\', b'b', rest @ ..] => (b"\x08", rest),
        [b'\\', b't', rest @ ..] => (b"\t", rest),
        [b'\\', b'n', rest @ ..] => (b"\n", rest),
        [b'\\', b'r', rest @ ..] => (b"\r", rest),
        [b'\\', b'Z', rest @ ..] => (b"\x1A", rest),
        [b'\\', b'%', rest @ ..] => (b"\\%", rest),
        [b'\\', b'_', rest @ ..] => (b"\\_", rest),
        [b'\\', _, rest @ ..] => (&left[1..2], rest),
        [first, second, rest @ ..] if *first == quote && *second == quote => (&left[..1], rest),
        _ => (&left[..1], &left[1..]),
    }
}

// What an escaped text denotes.
fn undone(alloc: Global, quote: u8, bytes: &[u8]) -> Result<Bytes, OutOfMemory>
    ensures { IfOk result (λ text. text ≡ undone quote bytes.now) }
{
    let mut text = Bytes::new(alloc);
    let mut left = bytes;
    while !left.is_empty() {
        let (piece, rest) = first_undone(quote, left);
        text.append(piece)?;
        left = rest;
    }
    Ok(text)
}

// What a quoted text denotes.
fn quoted_text(alloc: Global, bytes: &[u8]) -> Result<Bytes, OutOfMemory>
    ensures { IfOk result (λ text. text ≡ quoted_text bytes.now) }
{
    match bytes {
        [quote, ..] => undone(alloc, *quote, inside(bytes)),
        [] => Ok(Bytes::new(alloc)),
    }
}

/// The value that a token is.
pub(crate) fn read_value(alloc: Global, text: &[u8], token: &Token) -> Result<Value, Fault>
    ensures { Gives result (value_of text.now token.now) }
{
    let bytes = bytes_of(text, token);
    match token.kind {
        TokenKind::Number => Ok(Value::Number(Bytes::from_slice(alloc, bytes)?)),
        TokenKind::Quoted => Ok(Value::Text(quoted_text(alloc, bytes)?)),
        TokenKind::Word if same_text(bytes, b"NULL") => Ok(Value::Null),
        _ => Err(Fault::Refused),
    }
}
