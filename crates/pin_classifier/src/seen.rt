// What one pass over a statement sees.
ghost use Rattle.std.specs.Prelude.{◌≡◌, []};
ghost use Rattle.pin_classifier.specs.Passing.{seen_of, with_next};
ghost use Rattle.pin_classifier.specs.Statement.{statement};

use crate::calls::Calls;
use crate::opening::Opening;
use crate::variables::Variables;
use crate::words::{
    callee, is_from, is_quoted_call, is_release, is_unread, is_variable, variable_of,
};
use sql_tokens::{Token, TokenKind, Tokens, is_word, word_of};

// The first tokens of a statement, and what stands anywhere in it.
#[derive(Clone, Copy)]
pub(crate) struct Seen {
    pub opening: Opening,
    // An executed comment, what isn't closed, half of a system variable, or a NUL byte.
    pub unread: bool,
    pub calls: Calls,
    pub variables: Variables,
    // The words TEMPORARY, RELEASE but for NO RELEASE, and SQL_CALC_FOUND_ROWS.
    pub temporary: bool,
    pub release: bool,
    pub calc_rows: bool,
    // The words RETURNING, VALUE, FROM but in backticks, DUAL and INTO, and `(` behind a quoted text in `"`.
    pub returning: bool,
    pub value: bool,
    pub from: bool,
    pub dual: bool,
    pub into: bool,
    pub quoted_call: bool,
    // A user variable, but for the host of an account.
    pub user_variable: bool,
}

impl Seen {
    fn nothing() -> Self
        ensures { result ≡ seen_of [] [] }
    {
        Seen {
            opening: Opening::new(),
            unread: false,
            calls: Calls::new(),
            variables: Variables::new(),
            temporary: false,
            release: false,
            calc_rows: false,
            returning: false,
            value: false,
            from: false,
            dual: false,
            into: false,
            quoted_call: false,
            user_variable: false,
        }
    }

    // Takes the next token, which stands behind this one.
    fn take(&mut self, text: &[u8], before: Option<Token>, token: Token)
        ensures { self.new ≡ with_next text.now self.old before token }
    {
        let word = word_of(text, &token);
        self.opening.take(token);
        self.unread |= is_unread(text, &token);
        self.calls.take(callee(text, before, &token));
        self.variables.take(variable_of(text, &token));
        self.temporary |= is_word(word, b"TEMPORARY");
        self.release |= is_release(text, before, word);
        self.calc_rows |= is_word(word, b"SQL_CALC_FOUND_ROWS");
        self.returning |= is_word(word, b"RETURNING");
        self.value |= is_word(word, b"VALUE");
        self.from |= is_from(&token, word);
        self.dual |= is_word(word, b"DUAL");
        self.into |= is_word(word, b"INTO");
        self.quoted_call |= is_quoted_call(text, before, &token);
        self.user_variable |= is_variable(before, &token);
    }

    // What is seen of a statement. Takes no memory.
    #[tactic(auto, using(crate::proofs::Sightings::seen_is))]
    pub(crate) fn of(text: &[u8]) -> Self
        ensures { result ≡ seen_of text.now (statement text.now) }
    {
        let mut seen = Seen::nothing();
        let mut before = None;
        for token in Tokens::of(text) {
            if token.kind != TokenKind::Comment {
                seen.take(text, before, token);
                before = Some(token);
            }
        }
        seen
    }
}
