// The first rule that fits.
ghost use Rattle.std.specs.Prelude.{◌≡◌, ◌<◌, length};
ghost use Rattle.sql_tokens.specs.Tokens.{closed, plain_token_at, token_at};

use crate::TokenKind;
use crate::bytes::{begins_symbol, begins_word, behind, has_byte, word_run};
use crate::comment::{begins_block, begins_line_comment, block_length, executes, line_length};
use crate::number::number_length;
use crate::quote::{begins_name, begins_quoted, quoted_length};
use crate::variable::{system_variable_length, variable_name_length};

// What has an end, or goes on to the end of the text for want of it.
fn closed(kind: TokenKind, end: Option<usize>, bytes: &[u8]) -> (TokenKind, usize)
    ensures { result ≡ closed kind end bytes.now }
{
    match end {
        Some(length) => (kind, length),
        None => (TokenKind::Unclosed, bytes.len()),
    }
}

// A token that needs no end.
#[tactic(auto, unfolding(crate::specs::Tokens::plain_token_at))]
fn plain_token_at(bytes: &[u8]) -> (TokenKind, usize)
    ensures { result ≡ plain_token_at bytes.now }
{
    let system_variable = system_variable_length(bytes);
    if system_variable != 0 {
        return (TokenKind::SysVar, system_variable);
    }
    if has_byte(bytes, 0, b'@') {
        return (
            TokenKind::UserVar,
            1 + variable_name_length(behind(bytes, 1)),
        );
    }
    let number = number_length(bytes);
    if number != 0 {
        return (TokenKind::Number, number);
    }
    let word = word_run(bytes);
    if word != 0 {
        return (TokenKind::Word, word);
    }
    (TokenKind::Symbol, 1)
}

// The token at the front of these bytes, whatever they are: its kind and how many bytes it takes.
#[inline(never)]
#[tactic(auto, unfolding(crate::specs::Tokens::token_at))]
fn any_token_at(bytes: &[u8]) -> (TokenKind, usize)
    ensures { result ≡ token_at bytes.now }
{
    if begins_line_comment(bytes) {
        (TokenKind::Comment, line_length(bytes))
    } else if begins_block(bytes) {
        let kind = if executes(bytes) {
            TokenKind::Executed
        } else {
            TokenKind::Comment
        };
        closed(kind, block_length(bytes), bytes)
    } else if begins_quoted(bytes) {
        closed(TokenKind::Quoted, quoted_length(bytes), bytes)
    } else if begins_name(bytes) {
        closed(TokenKind::Name, quoted_length(bytes), bytes)
    } else {
        plain_token_at(bytes)
    }
}

// The same. Most tokens are words and symbols, which are told by their first byte; what else there may be is kept out of the
// loops over tokens.
#[tactic(auto, using(crate::proofs::SymbolStarts::symbol_token, crate::proofs::WordStarts::word_token))]
pub(crate) fn token_at(bytes: &[u8]) -> (TokenKind, usize)
    ensures { result ≡ token_at bytes.now }
{
    if begins_word(bytes) {
        (TokenKind::Word, word_run(bytes))
    } else if begins_symbol(bytes) {
        (TokenKind::Symbol, 1)
    } else {
        any_token_at(bytes)
    }
}
