// The tokens of a statement, and what they say.
ghost use Rattle.std.specs.Prelude.{◌≡◌, IfOk, map, option_map, option_copied, position};
ghost use Rattle.admin_port.specs.Words.{behind, behind_one, cut, is_ended, is_phrase, IsSplit, reads, statement_tokens, without_comments};

use mx_base::OutOfMemory;
use sql_tokens::{Token, TokenKind, Tokens, bytes_of, is_symbol, same_text};
use std::alloc::Global;

fn without_comments(alloc: Global, text: &[u8]) -> Result<Vec<Token>, OutOfMemory>
    ensures { IfOk result (λ tokens. tokens.items ≡ without_comments text.now) }
{
    let mut tokens = Vec::new(alloc);
    for token in Tokens::of(text) {
        if token.kind != TokenKind::Comment {
            tokens.push(token)?;
        }
    }
    Ok(tokens)
}

// Whether a `;` stands last.
fn is_ended(text: &[u8], tokens: &[Token]) -> bool
    ensures { result ≡ is_ended text.now tokens.now }
{
    match tokens.get(tokens.len().saturating_sub(1)) {
        Some(last) => is_symbol(text, last, b';'),
        None => false,
    }
}

/// The tokens of a statement that count: none of its comments, and not the `;` that ends it.
pub(crate) fn statement_tokens(alloc: Global, text: &[u8]) -> Result<Vec<Token>, OutOfMemory>
    ensures { IfOk result (λ tokens. tokens.items ≡ statement_tokens text.now) }
{
    let mut tokens = without_comments(alloc, text)?;
    if is_ended(text, &tokens) {
        tokens.truncate(tokens.len().saturating_sub(1));
    }
    Ok(tokens)
}

/// Whether a token is spelled so, in any ASCII case.
pub(crate) fn reads(text: &[u8], token: &Token, word: &[u8]) -> bool
    ensures { result ≡ reads text.now token.now word.now }
{
    same_text(bytes_of(text, token), word)
}

/// The first token, and those behind it.
#[tactic(auto, using(crate::proofs::Splits::split_first))]
pub(crate) fn first_token(tokens: &[Token]) -> Option<(Token, &[Token])>
    ensures { IsSplit tokens.now result }
{
    match tokens {
        [first, rest @ ..] => Some((*first, rest)),
        [] => None,
    }
}

// The tokens behind this word.
fn behind_one<'a>(text: &[u8], tokens: &'a [Token], word: &[u8]) -> Option<&'a [Token]>
    ensures { option_copied result ≡ behind_one text.now word.now tokens.now }
{
    let (first, rest) = first_token(tokens)?;
    if reads(text, &first, word) {
        Some(rest)
    } else {
        None
    }
}

/// The tokens behind these words, None where others stand first.
pub(crate) fn behind<'a>(text: &[u8], tokens: &'a [Token], words: &[&[u8]]) -> Option<&'a [Token]>
    ensures { option_copied result ≡ behind text.now (map (λ w. w.now) words.now) tokens.now }
{
    let mut left = tokens;
    for word in words {
        let Some(rest) = behind_one(text, left, word) else {
            return None;
        };
        left = rest;
    }
    Some(left)
}

/// Whether the tokens are these words and no more.
pub(crate) fn is_phrase(text: &[u8], tokens: &[Token], words: &[&[u8]]) -> bool
    ensures { result ≡ is_phrase text.now (map (λ w. w.now) words.now) tokens.now }
{
    match behind(text, tokens, words) {
        Some(rest) => rest.is_empty(),
        None => false,
    }
}

fn place_of(text: &[u8], tokens: &[Token], word: &[u8]) -> Option<usize>
    ensures { result ≡ position (λ token. reads text.now token word.now) tokens.now }
{
    tokens.iter().position(|token| reads(text, token, word))
}

/// The tokens before the first that is spelled so, and those behind it.
#[tactic(auto, using(std::proofs::lemmas::List::take_rest))]
pub(crate) fn cut<'a>(
    text: &[u8],
    tokens: &'a [Token],
    word: &[u8],
) -> Option<(&'a [Token], &'a [Token])>
    ensures { option_map (λ parts. (parts.0.now, parts.1.now)) result ≡ cut text.now word.now tokens.now }
{
    let at = place_of(text, tokens, word)?;
    Some((&tokens[..at], &tokens[at + 1..]))
}
