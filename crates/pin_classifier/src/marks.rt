// What is looked for in statements that may have it.
ghost use Rattle.std.specs.Prelude.{◌≡◌};
ghost use Rattle.std.specs.List.{list_any};
ghost use Rattle.pin_classifier.specs.Marks.{has_blank, is_other_blank, lasts, passes, stands};

use crate::diagnostics::names_any;
use crate::recent::Recent;
use crate::starts::shows_diagnostics;
use crate::word_list::{WordList, is_any};
use crate::words::{is_byte, is_there, is_wide_name, next_word, variable_of};
use sql_tokens::{Token, TokenKind, Tokens, bytes_of, is_symbol, says, word_of};

#[derive(Clone, Copy)]
pub(crate) enum Mark {
    // A call of LAST_INSERT_ID with an argument, which becomes the insert id (MySQL Reference Manual, "Information
    // Functions").
    GivenId,
    // PREVIOUS VALUE FOR (MariaDB, "Sequence Functions").
    PreviousValue,
    ForConnection,
    // A byte A0 or FF in a word or a variable's name, which servers may read as a blank.
    BlankInWord,
    // SHOW WARNINGS and its like, also behind other words.
    Diagnostic,
    // What a SET statement may set that no reset takes back, or that changes how statements are read.
    Lasting,
    // EVENT.
    Event,
}

// Whether a token is a word of what lasts, or a name that may be read as one.
fn lasts(text: &[u8], token: &Token) -> bool
    ensures { result ≡ lasts text.now token.now }
{
    let word = word_of(text, token);
    let variable = variable_of(text, token);
    is_any(WordList::Lasting, word)
        || is_wide_name(word)
        || names_any(WordList::Lasting, variable)
        || is_wide_name(variable)
}

#[tactic(auto, using(crate::proofs::Blanks::no_blank))]
pub(crate) fn has_blank_byte(text: &[u8]) -> bool
    ensures { result ≡ list_any is_other_blank text.now }
{
    !text.is_ascii() && text.iter().any(|byte| *byte == 0xA0 || *byte == 0xFF)
}

fn has_blank(kind: TokenKind, bytes: &[u8]) -> bool
    ensures { result ≡ has_blank kind bytes.now }
{
    match kind {
        TokenKind::Word | TokenKind::UserVar | TokenKind::SysVar => has_blank_byte(bytes),
        _ => false,
    }
}

// Whether a token is what is looked for, behind those before it.
fn passes(text: &[u8], mark: Mark, recent: Recent, token: &Token) -> bool
    ensures { result ≡ passes text.now mark recent token.now }
{
    match mark {
        Mark::GivenId => {
            is_byte(text, recent.last, b'(')
                && is_there(text, recent.earlier, b"LAST_INSERT_ID")
                && !is_symbol(text, token, b')')
        }
        Mark::PreviousValue => {
            says(text, token, b"FOR")
                && is_there(text, recent.last, b"VALUE")
                && is_there(text, recent.earlier, b"PREVIOUS")
        }
        Mark::ForConnection => {
            says(text, token, b"CONNECTION") && is_there(text, recent.last, b"FOR")
        }
        Mark::BlankInWord => has_blank(token.kind, bytes_of(text, token)),
        Mark::Diagnostic => {
            shows_diagnostics(next_word(text, recent.last), word_of(text, token))
        }
        Mark::Lasting => lasts(text, token),
        Mark::Event => says(text, token, b"EVENT"),
    }
}

// Whether it stands in a statement. One pass.
pub(crate) fn stands(text: &[u8], mark: Mark) -> bool
    ensures { result ≡ stands text.now mark }
{
    let mut recent = Recent::new();
    for token in Tokens::of(text) {
        if token.kind != TokenKind::Comment {
            if passes(text, mark, recent, &token) {
                return true;
            }
            recent = recent.then(token);
        }
    }
    false
}
