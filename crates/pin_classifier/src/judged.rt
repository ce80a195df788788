// MariaDB's SET STATEMENT .. FOR, which sets a variable for the statement behind it.
ghost use Rattle.std.specs.Prelude.{◌≡◌};
ghost use Rattle.pin_classifier.specs.Judged.{behind, is_number, is_number_kind, limits, sets_limit};
ghost use Rattle.pin_classifier.specs.Passing.{opening_of};
ghost use Rattle.pin_classifier.specs.Statement.{statement};

use crate::opening::Opening;
use crate::word_list::{WordList, is_any};
use crate::words::{is_byte, is_there, next_word};
use sql_tokens::{Token, TokenKind, behind};

fn is_number_kind(kind: TokenKind) -> bool
    ensures { result ≡ is_number_kind kind }
{
    kind == TokenKind::Number
}

// Whether a token is a number, and something stands between it and the next one.
fn is_number(token: Option<Token>, next: Option<Token>) -> bool
    ensures { result ≡ is_number token next }
{
    match (token, next) {
        (Some(token), Some(next)) => is_number_kind(token.kind) && token.end < next.start,
        _ => false,
    }
}

// Whether these are a variable that is a limit, `=`, a number and FOR.
fn limits(
    text: &[u8],
    name: Option<Token>,
    equals: Option<Token>,
    value: Option<Token>,
    end: Option<Token>,
) -> bool
    ensures { result ≡ limits text.now name equals value end }
{
    is_any(WordList::Limits, next_word(text, name))
        && is_byte(text, equals, b'=')
        && is_number(value, end)
        && is_there(text, end, b"FOR")
}

// Whether a statement begins with SET STATEMENT and these.
#[tactic(auto, unfolding(crate::specs::Judged::sets_limit))]
pub(crate) fn sets_limit(text: &[u8], opening: &Opening) -> bool
    requires { opening.now ≡ opening_of (statement text.now) }
    ensures { result ≡ sets_limit text.now (statement text.now) }
{
    is_there(text, opening.first, b"SET")
        && is_there(text, opening.second, b"STATEMENT")
        && limits(
            text,
            opening.third,
            opening.fourth,
            opening.fifth,
            opening.sixth,
        )
}

// What stands behind a token.
pub(crate) fn behind_token(text: &[u8], token: Option<Token>) -> &[u8]
    ensures { result.now ≡ behind text.now token }
{
    match token {
        Some(token) => behind(text, token.end),
        None => text,
    }
}
