// The digest of a statement.
ghost use Rattle.std.specs.Prelude.{◌≡◌, take, IfOk};
ghost use Rattle.query_digest.specs.Digest.{digest_of, is_apart};
ghost use Rattle.query_digest.specs.Parts.{part_by};
ghost use Rattle.query_digest.specs.Writing.{part_of};
ghost use Rattle.sql_tokens.specs.Words.{bytes_of as bytes_at};

use crate::writer::{Piece, Writer};
use mx_base::{Bytes, OutOfMemory};
use sql_tokens::{Token, TokenKind, Tokens, bytes_of};
use std::alloc::Global;

/// The digest of a statement, in the manner of the ProxySQL documentation's `stats_mysql_query_digest`: comments are
/// dropped, each quoted text and number is `?`, two or more of these with single commas between them are `?,...`, and
/// one blank stands where white space or a comment stood between two tokens. It is written into one buffer as long as
/// the statement, which grows once at most, since a digest is at most twice as long.
pub fn digest(alloc: Global, text: &[u8]) -> Result<Bytes, OutOfMemory>
    ensures { IfOk result (λ digest. digest ≡ digest_of text.now) }
{
    let mut writer = Writer::new(alloc, text.len())?;
    let mut end = None;
    for token in Tokens::of(text) {
        if token.kind != TokenKind::Comment {
            writer.put(is_apart(end, token.start), piece_of(text, &token))?;
            end = Some(token.end);
        }
    }
    writer.release()?;
    Ok(Bytes::from_vec(writer.out))
}

/// The first bytes of a statement's digest, so many at most. No more of the statement is split into tokens than these need, so a long list of
/// rows costs no more than a short one.
#[tactic(auto, using(crate::proofs::Starting::start_stays))]
pub fn digest_start(alloc: Global, text: &[u8], most: usize) -> Result<Bytes, OutOfMemory>
    ensures { IfOk result (λ start. start ≡ take most (digest_of text.now)) }
{
    let mut writer = Writer::new(alloc, text.len().min(most))?;
    let mut end = None;
    for token in Tokens::of(text) {
        if writer.out.len() >= most {
            return first_of(alloc, &writer.out, most);
        }
        if token.kind != TokenKind::Comment {
            writer.put(is_apart(end, token.start), piece_of(text, &token))?;
            end = Some(token.end);
        }
    }
    writer.release()?;
    first_of(alloc, &writer.out, most)
}

// So many of these bytes at most.
fn first_of(alloc: Global, bytes: &[u8], most: usize) -> Result<Bytes, OutOfMemory>
    ensures { IfOk result (λ first. first ≡ take most bytes.now) }
{
    let first = if bytes.len() <= most {
        bytes
    } else {
        &bytes[..most]
    };
    Bytes::from_slice(alloc, first)
}

// Whether something stood between the token that ended at a place, if there was one, and one that starts.
fn is_apart(end: Option<usize>, start: usize) -> bool
    ensures { result ≡ is_apart end start }
{
    match end {
        Some(end) => end < start,
        None => false,
    }
}

// What stands in the digest for a token that is no comment.
fn piece_of<'a>(text: &'a [u8], token: &Token) -> Piece<'a>
    ensures { part_of result ≡ part_by token.now.kind (bytes_at text.now token.now) }
{
    let bytes = bytes_of(text, token);
    match token.kind {
        TokenKind::Quoted | TokenKind::Number => Piece::Value,
        TokenKind::Symbol if bytes == b"?".as_slice() => Piece::Value,
        TokenKind::Symbol if bytes == b",".as_slice() => Piece::Comma,
        _ => Piece::Other(bytes),
    }
}
