// What the tokens of a statement say.
ghost use Rattle.std.specs.Prelude.{◌≡◌, ◌-◌, ◌&&◌, nat_eq, nat_lt, codes, length, slice_index_or, option_copied};
ghost use Rattle.std.specs.List.{list_all, list_any, slice_split};
ghost use Rattle.sql_tokens.specs.Words.{is_word, same_text};
ghost use Rattle.pin_classifier.specs.Functions.{matters};
ghost use Rattle.pin_classifier.specs.Passing.{callee, is_quoted_call, is_release, is_variable};
ghost use Rattle.pin_classifier.specs.Shapes.{is_there, is_byte};
ghost use Rattle.pin_classifier.specs.Statement.{first_word, next_word, opening_word, has_part, is_part, has_escaped, is_double_quoted, is_escaped, is_half, is_plain_word, is_quoted, is_user_variable, is_unread, is_unread_kind, is_wide, is_wide_name, releases, variable_of};

use crate::calls::is_session_function;
use crate::word_list::{WordList, lists};
use sql_tokens::{
    Token, TokenKind, behind, bytes_of, inside, is_one_of, is_symbol, is_word, same_text, says,
    word_of,
};

// Whether a token that is there says this word.
pub(crate) fn is_there(text: &[u8], token: Option<Token>, word: &[u8]) -> bool
    ensures { result ≡ is_there text.now token word.now }
{
    match token {
        Some(token) => says(text, &token, word),
        None => false,
    }
}

// Whether a token that is there is this one byte.
pub(crate) fn is_byte(text: &[u8], token: Option<Token>, byte: u8) -> bool
    ensures { result ≡ is_byte text.now token byte }
{
    match token {
        Some(token) => is_symbol(text, &token, byte),
        None => false,
    }
}

// The word of a first token: a `(` counts as SELECT.
pub(crate) fn opening_word<'a>(text: &'a [u8], token: &Token) -> Option<&'a [u8]>
    ensures { option_copied result ≡ opening_word text.now token.now }
{
    if is_symbol(text, token, b'(') {
        Some(b"SELECT")
    } else {
        word_of(text, token)
    }
}

pub(crate) fn first_word<'a>(text: &'a [u8], first: Option<Token>) -> Option<&'a [u8]>
    ensures { option_copied result ≡ first_word text.now first }
{
    let first = first?;
    opening_word(text, &first)
}

pub(crate) fn next_word<'a>(text: &'a [u8], second: Option<Token>) -> Option<&'a [u8]>
    ensures { option_copied result ≡ next_word text.now second }
{
    let second = second?;
    word_of(text, &second)
}

// Whether a token is FROM, and not in backticks.
pub(crate) fn is_from(token: &Token, word: Option<&[u8]>) -> bool
    ensures { result ≡ is_word (option_copied word.entry) (codes "FROM") && is_plain_word token.now.kind }
{
    is_word(word, b"FROM") && token.kind == TokenKind::Word
}

// The function that is called where this token is a `(` behind a word.
pub(crate) fn callee<'a>(text: &'a [u8], before: Option<Token>, token: &Token) -> Option<&'a [u8]>
    ensures { option_copied result ≡ callee text.now before token.now }
{
    let before = before?;
    if is_symbol(text, token, b'(') {
        word_of(text, &before)
    } else {
        None
    }
}

fn is_double_quoted(kind: TokenKind, bytes: &[u8]) -> bool
    ensures { result ≡ is_double_quoted kind bytes.now }
{
    match kind {
        TokenKind::Quoted => !bytes.is_empty() && bytes[0] == b'"',
        _ => false,
    }
}

// A function that is refused, or reads or changes what a session keeps; or one that may be read so.
fn matters(name: &[u8]) -> bool
    ensures { result ≡ matters name.now }
{
    is_session_function(name)
        || lists(WordList::ThreadFunctions, name)
        || lists(WordList::LastFunctions, name)
        || lists(WordList::OwnFunctions, name)
        || is_wide(name)
}

// Whether this token is a `(` behind a quoted text in `"`, which is the name of a function that matters where `"` quotes names.
pub(crate) fn is_quoted_call(text: &[u8], before: Option<Token>, token: &Token) -> bool
    ensures { result ≡ is_quoted_call text.now before token.now }
{
    match before {
        Some(before) => {
            is_double_quoted(before.kind, bytes_of(text, &before))
                && is_symbol(text, token, b'(')
                && matters(inside(bytes_of(text, &before)))
        }
        None => false,
    }
}

// Whether this word is RELEASE behind a token that isn't NO.
pub(crate) fn is_release(text: &[u8], before: Option<Token>, word: Option<&[u8]>) -> bool
    ensures { result ≡ is_release text.now before (option_copied word.entry) }
{
    match before {
        Some(before) => is_word(word, b"RELEASE") && !says(text, &before, b"NO"),
        None => false,
    }
}

// Scopes that are no names of variables.
static VARIABLE_SCOPES: [&[u8]; 5] = [b"global", b"session", b"local", b"persist", b"persist_only"];

// Half of a system variable, whose name goes on behind it: a scope alone, what ends in a dot, and the first `@` of an `@@` before a
// name in backticks.
fn is_half(kind: TokenKind, bytes: &[u8]) -> bool
    ensures { result ≡ is_half kind bytes.now }
{
    match kind {
        TokenKind::SysVar => { is_one_of(behind(bytes, 2), &VARIABLE_SCOPES) || ends_in_dot(bytes) }
        TokenKind::UserVar => bytes.len() == 1,
        _ => false,
    }
}

fn ends_in_dot(bytes: &[u8]) -> bool
    ensures { result ≡ nat_eq (slice_index_or bytes.now (length bytes.now - 1) 0) 46 }
{
    !bytes.is_empty() && bytes[bytes.len() - 1] == b'.'
}

// An executed comment, or what isn't closed.
fn is_unread_kind(kind: TokenKind) -> bool
    ensures { result ≡ is_unread_kind kind }
{
    match kind {
        TokenKind::Executed | TokenKind::Unclosed => true,
        _ => false,
    }
}

fn begins_with_quote(bytes: &[u8]) -> bool
    ensures { result ≡ nat_eq (slice_index_or bytes.now 0 0) 34 }
{
    !bytes.is_empty() && bytes[0] == b'"'
}

// Whether a `\` stands there, and a `"` behind it.
#[tactic(auto, unfolding(crate::specs::Statement::has_escaped))]
fn has_escaped(bytes: &[u8]) -> bool
    ensures { result ≡ has_escaped bytes.now }
{
    let mut left = bytes;
    while let [byte, rest @ ..] = left {
        if *byte == b'\\' && begins_with_quote(rest) {
            return true;
        }
        left = rest;
    }
    false
}

// Whether a token is a text in `"` with such a place.
fn is_escaped(kind: TokenKind, bytes: &[u8]) -> bool
    ensures { result ≡ is_escaped kind bytes.now }
{
    is_double_quoted(kind, bytes) && has_escaped(bytes)
}

// Whether a token isn't read as a server does.
pub(crate) fn is_unread(text: &[u8], token: &Token) -> bool
    ensures { result ≡ is_unread text.now token.now }
{
    is_unread_kind(token.kind)
        || is_half(token.kind, bytes_of(text, token))
        || is_symbol(text, token, b'\0')
        || is_escaped(token.kind, bytes_of(text, token))
}

fn is_user_variable(kind: TokenKind) -> bool
    ensures { result ≡ is_user_variable kind }
{
    kind == TokenKind::UserVar
}

fn is_quoted(kind: TokenKind) -> bool
    ensures { result ≡ is_quoted kind }
{
    kind == TokenKind::Quoted
}

// Whether this token is a user variable, and not the host of an account, which stands right behind a quoted text.
pub(crate) fn is_variable(before: Option<Token>, token: &Token) -> bool
    ensures { result ≡ is_variable before token.now }
{
    match before {
        Some(before) => is_user_variable(token.kind) && !is_quoted(before.kind),
        None => false,
    }
}

// The name of a system variable, behind its `@@`.
pub(crate) fn variable_of<'a>(text: &'a [u8], token: &Token) -> Option<&'a [u8]>
    ensures { option_copied result ≡ variable_of text.now token.now }
{
    match token.kind {
        TokenKind::SysVar => Some(behind(bytes_of(text, token), 2)),
        _ => None,
    }
}

// Whether one of the parts of a name, between its dots, is this one.
fn has_part(name: &[u8], part: &[u8]) -> bool
    ensures { result ≡ has_part name.now part.now }
{
    name.split(|byte| *byte == b'.')
        .any(|one| same_text(one, part))
}

pub(crate) fn is_part(name: Option<&[u8]>, part: &[u8]) -> bool
    ensures { result ≡ is_part (option_copied name.entry) part.now }
{
    match name {
        Some(name) => has_part(name, part),
        None => false,
    }
}

pub(crate) fn is_ascii(bytes: &[u8]) -> bool
    ensures { result ≡ list_all (λ b. nat_lt b 128) bytes.now }
{
    bytes.iter().all(|byte| *byte < 0x80)
}

// Whether a name has bytes of other alphabets, where a server may take a letter with an accent for the one without.
fn is_wide(bytes: &[u8]) -> bool
    ensures { result ≡ is_wide bytes.now }
{
    !is_ascii(bytes)
}

pub(crate) fn is_wide_name(name: Option<&[u8]>) -> bool
    ensures { result ≡ is_wide_name (option_copied name.entry) }
{
    match name {
        Some(name) => is_wide(name),
        None => false,
    }
}
