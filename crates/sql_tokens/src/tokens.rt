// The tokens of a text, one after the other.
ghost use Rattle.std.specs.Prelude.{◌≡◌, ◌≤◌, length};
ghost use Rattle.std.specs.Iterator.{YieldsFirst, item_count};
ghost use Rattle.sql_tokens.specs.Tokens.{tokens_of, IsNextToken};

use crate::Token;
use crate::bytes::{behind, white_run};
use crate::rule::token_at;
use std::marker::Model;

/// The tokens of a text that are left. A contract sees them as a list.
#[derive(Drop)]
pub struct Tokens<'a> {
    text: &'a [u8],
    place: usize,
}

impl<'a> Model for Tokens<'a> {
    ghost use Rattle.std.specs.Prelude.{List, ◌≤◌, length};
    ghost use Rattle.sql_tokens.specs.declared.token.Token.{Token};
    ghost use Rattle.sql_tokens.specs.Tokens.{tokens_behind};

    ghost Value = { List Token };

    ghost view = { λ t. tokens_behind t.text.now t.place };

    ghost invariant = { λ t. t.place ≤ length t.text.now };
}

impl<'a> Tokens<'a> {
    /// The tokens of these bytes, whatever they are (MySQL Reference Manual, "Language Structure"). Takes no memory, and
    /// looks at no byte more than a few times.
    pub fn of(text: &'a [u8]) -> Self
        ensures { result ≡ tokens_of text.now }
    {
        Tokens { text, place: 0 }
    }

    /// The same tokens, for whoever looks ahead. Takes no memory.
    pub fn copy(&self) -> Self
        ensures { result ≡ self.now }
    {
        Tokens {
            text: self.text,
            place: self.place,
        }
    }
}

impl<'a> Iterator for Tokens<'a> {
    type Item = Token;

    ghost next_gives = { YieldsFirst (λ tokens. tokens) };

    ghost remaining = { item_count (λ tokens. tokens) };

    fn next(&mut self) -> Option<Token> {
        let token = next_token(self.text, self.place)?;
        self.place = token.end;
        Some(token)
    }
}

// The first token at a place or behind it.
fn next_token(text: &[u8], place: usize) -> Option<Token>
    requires { place ≤ length text.now }
    ensures { IsNextToken text.now place result }
{
    let start = place + white_run(behind(text, place));
    let rest = behind(text, start);
    if rest.is_empty() {
        return None;
    }
    let (kind, length) = token_at(rest);
    Some(Token {
        kind,
        start,
        end: start + length,
    })
}
