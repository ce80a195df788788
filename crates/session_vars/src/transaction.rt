// SET SESSION TRANSACTION, behind these words.
ghost use Rattle.std.specs.Prelude.{◌≡◌, ◌∷◌, []};
ghost use Rattle.std.specs.Option.{option_to_list};
ghost use Rattle.session_vars.specs.Scopes.{server_set};
ghost use Rattle.session_vars.specs.Transactions.{slot_of, value_of, access_mode, isolation_level, mode_of};

use crate::Slot;
use crate::set_tokens::SetTokens;
use sql_tokens::{Token, says};

// What SET SESSION TRANSACTION gives the session's transactions.
#[derive(Clone, Copy)]
pub(crate) enum Mode {
    ReadUncommitted,
    ReadCommitted,
    RepeatableRead,
    Serializable,
    ReadOnly,
    ReadWrite,
}

impl Mode {
    pub(crate) fn slot(self) -> Slot
        ensures { result ≡ slot_of self }
    {
        match self {
            Mode::ReadOnly | Mode::ReadWrite => Slot::TransactionReadOnly,
            _ => Slot::TransactionIsolation,
        }
    }

    pub(crate) fn value(self) -> &'static [u8]
        ensures { result.now ≡ value_of self }
    {
        match self {
            Mode::ReadUncommitted => b"'READ-UNCOMMITTED'",
            Mode::ReadCommitted => b"'READ-COMMITTED'",
            Mode::RepeatableRead => b"'REPEATABLE-READ'",
            Mode::Serializable => b"'SERIALIZABLE'",
            Mode::ReadOnly => b"1",
            Mode::ReadWrite => b"0",
        }
    }
}

// Behind READ.
#[tactic(auto, unfolding(crate::specs::Transactions::access_mode))]
fn access_mode(text: &[u8], token: &Token) -> Option<Mode>
    ensures { result ≡ access_mode text.now token.now }
{
    if says(text, token, b"ONLY") {
        Some(Mode::ReadOnly)
    } else if says(text, token, b"WRITE") {
        Some(Mode::ReadWrite)
    } else {
        None
    }
}

// An isolation level of two words.
#[tactic(auto, unfolding(crate::specs::Transactions::isolation_level))]
fn isolation_level(text: &[u8], first: &Token, second: &Token) -> Option<Mode>
    ensures { result ≡ isolation_level text.now first.now second.now }
{
    if says(text, first, b"READ") && says(text, second, b"UNCOMMITTED") {
        Some(Mode::ReadUncommitted)
    } else if says(text, first, b"READ") && says(text, second, b"COMMITTED") {
        Some(Mode::ReadCommitted)
    } else if says(text, first, b"REPEATABLE") && says(text, second, b"READ") {
        Some(Mode::RepeatableRead)
    } else {
        None
    }
}

// READ ONLY or READ WRITE.
#[tactic(auto, unfolding(crate::specs::Transactions::mode_of))]
fn two_words(text: &[u8], first: &Token, second: &Token) -> Option<Mode>
    ensures { result ≡ mode_of text.now (first.now ∷ second.now ∷ []) }
{
    if says(text, first, b"READ") {
        access_mode(text, second)
    } else {
        None
    }
}

// ISOLATION LEVEL and a level of one word or two.
#[tactic(auto, unfolding(crate::specs::Transactions::mode_of))]
fn more_words(
    text: &[u8],
    first: &Token,
    second: &Token,
    third: &Token,
    fourth: Option<Token>,
) -> Option<Mode>
    ensures { result ≡ mode_of text.now (first.now ∷ second.now ∷ third.now ∷ option_to_list fourth) }
{
    if !says(text, first, b"ISOLATION") || !says(text, second, b"LEVEL") {
        return None;
    }
    match fourth {
        Some(fourth) => isolation_level(text, third, &fourth),
        None if says(text, third, b"SERIALIZABLE") => Some(Mode::Serializable),
        None => None,
    }
}

// `READ ONLY`, `READ WRITE`, or `ISOLATION LEVEL` and a level, and nothing behind.
#[tactic(auto, unfolding(crate::specs::Transactions::mode_of))]
pub(crate) fn mode_of(text: &[u8], tokens: &mut SetTokens) -> Option<Mode>
    ensures mode { result ≡ mode_of text.now tokens.old.left }
    ensures scope { server_set text.now tokens.new ≡ server_set text.now tokens.old }
{
    let first = tokens.next(text)?;
    let second = tokens.next(text)?;
    let Some(third) = tokens.next(text) else {
        return two_words(text, &first, &second);
    };
    let fourth = tokens.next(text);
    if tokens.next(text).is_some() {
        return None;
    }
    more_words(text, &first, &second, &third, fourth)
}
