// The tokens of a statement that count.
ghost use Rattle.std.specs.Prelude.{◌≡◌, nat_eq, length, slice_get, [], ◌∷◌, MatchOption, option_copied};
ghost use Rattle.std.specs.Iterator.{YieldsFirst, item_count};
ghost use Rattle.session_vars.specs.Statement.{statement_of, without_comments, says_there, is_session_word, spoken_by};
ghost use Rattle.sql_tokens.specs.Words.{bytes_of as bytes_at};

use sql_tokens::{Token, TokenKind, Tokens, bytes_of, inside, is_symbol, says};
use std::marker::Model;

/// The tokens of a statement that are left, without comments and without one `;` at the end. A contract sees them as a
/// list.
#[derive(Drop)]
pub struct Statement<'a> {
    text: &'a [u8],
    tokens: Tokens<'a>,
}

impl<'a> Model for Statement<'a> {
    ghost use Rattle.std.specs.Prelude.{List};
    ghost use Rattle.sql_tokens.specs.declared.token.Token.{Token};
    ghost use Rattle.session_vars.specs.Statement.{without_comments, without_end};

    ghost Value = { List Token };

    ghost view = { λ s. without_end s.text.now (without_comments s.tokens) };
}

impl<'a> Statement<'a> {
    /// The tokens of this statement, whatever bytes it has (MySQL Reference Manual, "Language Structure"). Takes no
    /// memory.
    pub fn of(text: &'a [u8]) -> Self
        ensures { result ≡ statement_of text.now }
    {
        Statement {
            text,
            tokens: Tokens::of(text),
        }
    }

    // The next token, which stays there.
    pub(crate) fn first(&self) -> Option<Token>
        ensures { result ≡ slice_get self.now 0 }
    {
        let mut ahead = Statement {
            text: self.text,
            tokens: self.tokens.copy(),
        };
        ahead.next()
    }
}

impl<'a> Iterator for Statement<'a> {
    type Item = Token;

    ghost next_gives = { YieldsFirst (λ tokens. tokens) };

    ghost remaining = { item_count (λ tokens. tokens) };

    // For the loop over a SET statement's tokens.
    #[inline(always)]
    #[tactic(auto, using(crate::proofs::LastTokens::end_alone, crate::proofs::LastTokens::no_end, crate::proofs::LastTokens::more_behind))]
    fn next(&mut self) -> Option<Token> {
        let token = next_counting(&mut self.tokens)?;
        if is_symbol(self.text, &token, b';') && is_at_end(&self.tokens) {
            return None;
        }
        Some(token)
    }
}

// Whether only comments are left. A `;` is rare, so this is kept out of the loops over tokens.
#[inline(never)]
fn is_at_end(tokens: &Tokens) -> bool
    ensures { result ≡ nat_eq (length (without_comments tokens.now)) 0 }
{
    next_counting(&mut tokens.copy()).is_none()
}

// The next token that is no comment.
fn next_counting(tokens: &mut Tokens) -> Option<Token>
    ensures { MatchOption result ((without_comments tokens.old ≡ []) × (without_comments tokens.new ≡ [])) (λ token. without_comments tokens.old ≡ token ∷ without_comments tokens.new) }
{
    while let Some(token) = tokens.next() {
        if token.kind != TokenKind::Comment {
            return Some(token);
        }
    }
    None
}

// Whether a token that is there is this word.
pub(crate) fn says_there(text: &[u8], token: Option<Token>, word: &[u8]) -> bool
    ensures { result ≡ says_there text.now token word.now }
{
    match token {
        Some(token) => says(text, &token, word),
        None => false,
    }
}

// SESSION or LOCAL, which are one.
pub(crate) fn is_session_word(text: &[u8], token: &Token) -> bool
    ensures { result ≡ is_session_word text.now token.now }
{
    says(text, token, b"SESSION") || says(text, token, b"LOCAL")
}

// What a word, a name in backticks or a quoted text stands for.
pub(crate) fn spoken<'a>(text: &'a [u8], token: &Token) -> Option<&'a [u8]>
    ensures { option_copied result ≡ spoken_by token.now.kind (bytes_at text.now token.now) }
{
    match token.kind {
        TokenKind::Word => Some(bytes_of(text, token)),
        TokenKind::Name | TokenKind::Quoted => Some(inside(bytes_of(text, token))),
        _ => None,
    }
}
