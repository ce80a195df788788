// The shape of a statement.
ghost use Rattle.std.specs.Prelude.{◌≡◌, IfOk};
ghost use Rattle.pin_classifier.specs.Passing.{opening_of};
ghost use Rattle.pin_classifier.specs.Shapes.{asks_connection_id, is_end, undoubled, denoted, used_schema, use_or_other, shape_of};
ghost use Rattle.pin_classifier.specs.Statement.{statement};
ghost use Rattle.sql_tokens.specs.Words.{inside};

use crate::Shape;
use crate::opening::Opening;
use crate::words::{is_ascii, is_byte, is_there};
use mx_base::{Bytes, OutOfMemory};
use session_vars::read_set;
use sql_tokens::{Token, TokenKind, bytes_of, is_symbol, word_of};
use std::alloc::Global;

// Whether nothing is left, or one `;` and nothing.
pub(crate) fn is_end(text: &[u8], token: Option<Token>, more: Option<Token>) -> bool
    ensures { result ≡ is_end text.now token more }
{
    match token {
        Some(token) => is_symbol(text, &token, b';') && more.is_none(),
        None => true,
    }
}

// Whether a statement is SELECT CONNECTION_ID().
#[tactic(auto, unfolding(crate::specs::Shapes::asks_connection_id))]
fn asks_connection_id(text: &[u8], opening: &Opening) -> bool
    requires { opening.now ≡ opening_of (statement text.now) }
    ensures { result ≡ asks_connection_id text.now (statement text.now) }
{
    is_there(text, opening.first, b"SELECT")
        && is_there(text, opening.second, b"CONNECTION_ID")
        && is_byte(text, opening.third, b'(')
        && is_byte(text, opening.fourth, b')')
        && is_end(text, opening.fifth, opening.sixth)
}

// What stands between backticks, a doubled backtick being one.
fn undoubled(alloc: Global, bytes: &[u8]) -> Result<Bytes, OutOfMemory>
    ensures { IfOk result (λ name. name ≡ undoubled bytes.now) }
{
    let mut out = Vec::with_capacity(alloc, bytes.len())?;
    let mut doubles = false;
    for byte in bytes {
        if doubles && *byte == b'`' {
            doubles = false;
        } else {
            out.push(*byte)?;
            doubles = *byte == b'`';
        }
    }
    Ok(Bytes::from_vec(out))
}

// The name that a token denotes.
fn denoted(alloc: Global, text: &[u8], token: &Token) -> Result<Option<Bytes>, OutOfMemory>
    ensures { IfOk result (λ name. name ≡ denoted text.now token.now) }
{
    let Some(word) = word_of(text, token) else {
        return Ok(None);
    };
    if token.kind == TokenKind::Word {
        Ok(Some(Bytes::from_slice(alloc, word)?))
    } else {
        Ok(Some(undoubled(alloc, word)?))
    }
}

// The schema that a USE statement names.
#[tactic(auto, unfolding(crate::specs::Shapes::used_schema))]
fn used_schema(alloc: Global, text: &[u8], opening: &Opening) -> Result<Option<Bytes>, OutOfMemory>
    requires { opening.now ≡ opening_of (statement text.now) }
    ensures { IfOk result (λ schema. schema ≡ used_schema text.now (statement text.now)) }
{
    if !is_there(text, opening.first, b"USE") || !is_end(text, opening.third, opening.fourth) {
        return Ok(None);
    }
    match opening.second {
        Some(name) => denoted(alloc, text, &name),
        None => Ok(None),
    }
}

// What a server makes of a name with other bytes than ASCII depends on the connection.
fn use_or_other(schema: Option<Bytes>) -> Shape
    ensures { result ≡ use_or_other schema }
{
    match schema {
        Some(schema) if is_ascii(schema.as_slice()) => Shape::Use(schema),
        _ => Shape::Other,
    }
}

// What a statement is as a whole, where that matters.
#[tactic(auto, unfolding(crate::specs::Shapes::shape_of))]
pub(crate) fn shape_of(alloc: Global, text: &[u8], opening: &Opening) -> Result<Shape, OutOfMemory>
    requires { opening.now ≡ opening_of (statement text.now) }
    ensures { IfOk result (λ shape. shape ≡ shape_of text.now) }
{
    if is_there(text, opening.first, b"SET") {
        return Ok(Shape::Set(read_set(alloc, text)?));
    }
    if asks_connection_id(text, opening) {
        return Ok(Shape::ConnectionId);
    }
    Ok(use_or_other(used_schema(alloc, text, opening)?))
}
