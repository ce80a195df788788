// Quoted texts and names (MySQL Reference Manual, "String Literals" and "Schema Object Names").
ghost use Rattle.std.specs.Prelude.{◌≡◌};
ghost use Rattle.sql_tokens.specs.Quotes.{escapes, is_inside, is_pair, begins_pair, to_closing, begins_quoted, begins_name, quoted_length};

use crate::bytes::{behind, has_byte};

// `'` or `"`.
#[tactic(auto, unfolding(crate::specs::Quotes::begins_quoted))]
pub(crate) fn begins_quoted(bytes: &[u8]) -> bool
    ensures { result ≡ begins_quoted bytes.now }
{
    has_byte(bytes, 0, b'\'') || has_byte(bytes, 0, b'"')
}

// A backtick.
#[tactic(auto, unfolding(crate::specs::Quotes::begins_name))]
pub(crate) fn begins_name(bytes: &[u8]) -> bool
    ensures { result ≡ begins_name bytes.now }
{
    has_byte(bytes, 0, b'`')
}

// Two bytes that stand for one inside: an escaped byte, or the quote doubled.
fn is_pair(quote: u8, first: u8, second: u8) -> bool
    ensures { result ≡ is_pair quote first second }
{
    (first == b'\\' && quote != b'`') || (first == quote && second == quote)
}

// Most bytes: they neither end what is quoted nor begin a pair.
fn is_inside(quote: u8, byte: u8) -> bool
    ensures { result ≡ is_inside quote byte }
{
    byte != quote && byte != b'\\'
}

fn begins_pair(quote: u8, bytes: &[u8]) -> bool
    ensures { result ≡ begins_pair quote bytes.now }
{
    match bytes {
        [first, second, ..] => is_pair(quote, *first, *second),
        _ => false,
    }
}

// What follows an opening quote, to the closing one and with it.
fn to_closing(quote: u8, bytes: &[u8]) -> Option<usize>
    ensures { result ≡ to_closing quote bytes.now }
{
    let mut i = 0;
    while i < bytes.len() {
        if is_inside(quote, bytes[i]) {
            i += 1;
        } else if begins_pair(quote, behind(bytes, i)) {
            i += 2;
        } else if bytes[i] == quote {
            return Some(i + 1);
        } else {
            i += 1;
        }
    }
    None
}

// From an opening quote to the closing one.
#[tactic(auto, unfolding(crate::specs::Quotes::quoted_length))]
pub(crate) fn quoted_length(bytes: &[u8]) -> Option<usize>
    ensures { result ≡ quoted_length bytes.now }
{
    let [quote, ..] = bytes else {
        return None;
    };
    let end = to_closing(*quote, behind(bytes, 1))?;
    Some(1 + end)
}
