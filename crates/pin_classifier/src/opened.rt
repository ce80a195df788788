// Executed comments that each server executes, with words, numbers and brackets alone inside (MySQL Reference Manual, "Comments"; MariaDB,
// "Comment Syntax").
ghost use Rattle.std.specs.Prelude.{◌≡◌, ◌++◌, IfOk};
ghost use Rattle.std.specs.Char.{is_ascii_digit};
ghost use Rattle.std.specs.List.{list_all};
ghost use Rattle.sql_tokens.specs.Bytes.{is_white};
ghost use Rattle.sql_tokens.specs.Words.{bytes_of};
ghost use Rattle.pin_classifier.specs.Opened.{byte_at, front_length, has_executed, is_early, is_executed, is_old, is_plain, is_plain_byte, is_readable, opened, opened_by, piece, shown_by, spaced};
ghost use Rattle.pin_classifier.specs.Statement.{statement};

use crate::words::is_unread;
use mx_base::{Bytes, OutOfMemory};
use sql_tokens::{Token, TokenKind, Tokens, behind, bytes_of, front};
use std::alloc::Global;

fn byte_at(bytes: &[u8], place: usize) -> u8
    ensures { result ≡ byte_at bytes.now place }
{
    if place < bytes.len() { bytes[place] } else { 0 }
}

fn is_white(byte: u8) -> bool
    ensures { result ≡ is_white byte }
{
    (9 <= byte && byte <= 13) || byte == b' '
}

// Digits of a version from 4 on and before 5.7.0.
fn is_early(digits: &[u8]) -> bool
    ensures { result ≡ is_early digits.now }
{
    let first = byte_at(digits, 0);
    let second = byte_at(digits, 1);
    let third = byte_at(digits, 2);
    first == b'4' || (first == b'5' && second == b'0' && third < b'7')
}

fn are_digits(bytes: &[u8]) -> bool
    ensures { result ≡ list_all is_ascii_digit bytes.now }
{
    bytes.iter().all(|byte| byte.is_ascii_digit())
}

// Five digits, of such a version: MariaDB passes over comments of later ones.
fn is_old(digits: &[u8]) -> bool
    ensures { result ≡ is_old digits.now }
{
    are_digits(front(digits, 5)) && is_early(digits)
}

// How many bytes stand before what each server executes; 0 where it isn't so.
fn front_length(bytes: &[u8]) -> usize
    ensures { result ≡ front_length bytes.now }
{
    if byte_at(bytes, 2) != b'!' {
        0
    } else if is_white(byte_at(bytes, 3)) {
        3
    } else if is_white(byte_at(bytes, 8)) && is_old(behind(bytes, 3)) {
        8
    } else {
        0
    }
}

// What stands between so many bytes and the `*/`.
fn opened_by(start: usize, bytes: &[u8]) -> &[u8]
    ensures { result.now ≡ opened_by start bytes.now }
{
    front(
        behind(bytes, start),
        bytes.len().saturating_sub(start).saturating_sub(2),
    )
}

fn opened(bytes: &[u8]) -> &[u8]
    ensures { result.now ≡ opened bytes.now }
{
    opened_by(front_length(bytes), bytes)
}

fn is_plain_byte(byte: u8) -> bool
    ensures { result ≡ is_plain_byte byte }
{
    byte.is_ascii_alphanumeric()
        || byte == b'_'
        || byte == b' '
        || byte == b'('
        || byte == b')'
        || byte == b','
        || byte == b'='
}

fn are_plain(bytes: &[u8]) -> bool
    ensures { result ≡ list_all is_plain_byte bytes.now }
{
    bytes.iter().all(|byte| is_plain_byte(*byte))
}

fn is_plain(bytes: &[u8]) -> bool
    ensures { result ≡ is_plain bytes.now }
{
    let start = front_length(bytes);
    start != 0 && are_plain(opened_by(start, bytes))
}

fn is_executed(kind: TokenKind) -> bool
    ensures { result ≡ is_executed kind }
{
    kind == TokenKind::Executed
}

// Such a comment, or what is read as it stands.
fn is_readable(text: &[u8], token: &Token) -> bool
    ensures { result ≡ is_readable text.now token.now }
{
    if is_executed(token.kind) {
        is_plain(bytes_of(text, token))
    } else {
        !is_unread(text, token)
    }
}

// Whether a statement has executed comments.
pub(crate) fn has_executed(text: &[u8]) -> bool
    ensures { result ≡ has_executed (statement text.now) }
{
    for token in Tokens::of(text) {
        if token.kind != TokenKind::Comment && is_executed(token.kind) {
            return true;
        }
    }
    false
}

// Whether these are such, and all else can be read.
pub(crate) fn are_readable(text: &[u8]) -> bool
    ensures { result ≡ list_all (is_readable text.now) (statement text.now) }
{
    for token in Tokens::of(text) {
        if token.kind != TokenKind::Comment && !is_readable(text, &token) {
            return false;
        }
    }
    true
}

fn shown<'a>(text: &'a [u8], token: &Token) -> &'a [u8]
    ensures { result.now ≡ shown_by token.now.kind (bytes_of text.now token.now) }
{
    let bytes = bytes_of(text, token);
    if is_executed(token.kind) {
        opened(bytes)
    } else {
        bytes
    }
}

// Appends a token and a space, or what stands inside of such a comment.
#[tactic(auto, using(std::proofs::Common::append_assoc))]
fn put_piece(out: &mut Vec<u8>, text: &[u8], token: &Token) -> Result<(), OutOfMemory>
    ensures { IfOk result (λ _. out.new.items ≡ out.old.items ++ piece text.now token.now) }
{
    out.extend_from_slice(shown(text, token))?;
    out.push(b' ')?;
    Ok(())
}

// These of all tokens of a statement.
#[tactic(auto, using(std::proofs::Common::append_assoc, crate::proofs::Endings::nothing_more))]
pub(crate) fn spaced(alloc: Global, text: &[u8]) -> Result<Bytes, OutOfMemory>
    ensures { IfOk result (λ opened. opened ≡ spaced text.now (statement text.now)) }
{
    let mut out = Vec::new(alloc);
    for token in Tokens::of(text) {
        if token.kind != TokenKind::Comment {
            put_piece(&mut out, text, &token)?;
        }
    }
    Ok(Bytes::from_vec(out))
}
