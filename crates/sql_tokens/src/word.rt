// What tokens say.
ghost use Rattle.std.specs.Prelude.{◌≡◌, ◌↔◌, IsTrue, bytes_eq, [], ◌∷◌, Option, option_copied, slice_range};
ghost use Rattle.std.specs.List.{list_any};
ghost use Rattle.sql_tokens.specs.Words.{bytes_of, inside, is_symbol, is_word, same_text, says, word_of, NamesWord};

use crate::{Token, TokenKind};

// The bytes from one place to another, as far as they are there.
fn range(bytes: &[u8], start: usize, end: usize) -> &[u8]
    ensures { result.now ≡ slice_range bytes.now start end }
{
    let end = end.min(bytes.len());
    let start = start.min(end);
    &bytes[start..end]
}

/// The bytes of a token of this text, as far as the text has them. Takes no memory.
pub fn bytes_of<'a>(text: &'a [u8], token: &Token) -> &'a [u8]
    ensures { result.now ≡ bytes_of text.now token.now }
{
    range(text, token.start, token.end)
}

/// What stands between the first byte and the last one, as between quotes. Takes no memory.
pub fn inside(bytes: &[u8]) -> &[u8]
    ensures { result.now ≡ inside bytes.now }
{
    range(bytes, 1, bytes.len().saturating_sub(1))
}

/// The word that a token of this text names: a Word's bytes, or what stands between the backticks of a Name, where a
/// doubled backtick stays doubled. None for every other kind. Takes no memory.
pub fn word_of<'a>(text: &'a [u8], token: &Token) -> Option<&'a [u8]>
    ensures { option_copied result ≡ word_of text.now token.now }
{
    match token.kind {
        TokenKind::Word => Some(bytes_of(text, token)),
        TokenKind::Name => Some(inside(bytes_of(text, token))),
        _ => None,
    }
}

/// Whether two texts are one without regard to ASCII case. Takes no memory.
pub fn same_text(a: &[u8], b: &[u8]) -> bool
    ensures { result ≡ same_text a.now b.now }
{
    a.eq_ignore_ascii_case(b)
}

/// Whether a text is one of these, without regard to ASCII case. Takes no memory.
pub fn is_one_of(text: &[u8], words: &[&[u8]]) -> bool
    ensures { result ≡ list_any (λ word. same_text text.now word.now) words.now }
{
    words.iter().any(|word| same_text(text, word))
}

/// Whether a word that is there is this one, in any ASCII case. Takes no memory.
pub fn is_word(named: Option<&[u8]>, word: &[u8]) -> bool
    ensures { result ≡ is_word (option_copied named.entry) word.now }
{
    match named {
        Some(named) => same_text(named, word),
        None => false,
    }
}

/// Whether a token of this text names this word, in any ASCII case, in backticks or not. Takes no memory.
pub fn says(text: &[u8], token: &Token, word: &[u8]) -> bool
    ensures computed { result ≡ says text.now token.now word.now }
    ensures named { IsTrue result ↔ NamesWord text.now token.now word.now }
{
    is_word(word_of(text, token), word)
}

fn is_byte(bytes: &[u8], byte: u8) -> bool
    ensures { result ≡ bytes_eq bytes.now (byte ∷ []) }
{
    match bytes {
        [one] => *one == byte,
        _ => false,
    }
}

/// Whether a token of this text is this one byte. Takes no memory.
pub fn is_symbol(text: &[u8], token: &Token, byte: u8) -> bool
    ensures { result ≡ is_symbol text.now token.now byte }
{
    token.kind == TokenKind::Symbol && is_byte(bytes_of(text, token), byte)
}
