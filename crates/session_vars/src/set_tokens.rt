// The tokens behind SET, as they are taken.
ghost use Rattle.std.specs.Prelude.{◌≡◌, ◌+◌, ◌≤◌, ◌<◌, ◌^◌, true, [], ◌∷◌, ◌++◌, take, length, MatchOption, IfSome, IfNone, IfOk, OnOk, if◌then◌else◌};

use crate::SetShape;
use crate::scope::{deeper, names_server};
use crate::statement::Statement;
use mx_base::OutOfMemory;
use sql_tokens::{Token, bytes_of, is_symbol, says};

// How many tokens of a part of a statement are kept: one more than an assignment has.
const MOST_KEPT: usize = 65;

// The tokens behind SET that are left. Those that are taken are watched, so that in the end it is known whether one of
// them sets anything of the whole server.
#[derive(Drop)]
pub(crate) struct SetTokens<'a> {
    pub(crate) left: Statement<'a>,
    // How many brackets are open.
    pub(crate) depth: usize,
    // Whether the scope of an assignment may stand next.
    pub(crate) is_due: bool,
    // Whether a scope of the whole server was taken.
    pub(crate) sets_server: bool,
    ghost shallow: { depth + length left < 2 ^ 64 },
}

impl<'a> SetTokens<'a> {
    ghost use Rattle.session_vars.specs.Scopes.{before_comma, behind_comma, deeper, divides, server_set};
    ghost use Rattle.session_vars.specs.Shapes.{own_shape, set_shape};

    // The tokens behind SET. None where the statement isn't a SET statement.
    #[tactic(auto, using(crate::proofs::Sizes::statement_size), unfolding(crate::specs::Shapes::shape_behind))]
    pub(crate) fn of(text: &'a [u8]) -> Option<Self>
        ensures none { IfNone result (set_shape text.now ≡ SetShape.NotSet) }
        ensures outside { IfSome result (λ tokens. tokens.depth ≡ 0) }
        ensures some { IfSome result (λ tokens. set_shape text.now ≡ (if server_set text.now tokens then SetShape.Global else own_shape text.now tokens.left)) }
    {
        let mut left = Statement::of(text);
        let first = left.next()?;
        if !says(text, &first, b"SET") {
            return None;
        }
        Some(SetTokens {
            left,
            depth: 0,
            is_due: true,
            sets_server: false,
        })
    }

    // The next token. Nearly all calls are that of `next_part`, in a loop over a statement's tokens.
    #[inline(always)]
    pub(crate) fn next(&mut self, text: &[u8]) -> Option<Token>
        ensures token { MatchOption result ((self.old.left ≡ []) × (self.new.left ≡ [])) (λ token. self.old.left ≡ token ∷ self.new.left) }
        ensures depth { MatchOption result (self.new.depth ≡ self.old.depth) (λ token. self.new.depth ≡ deeper text.now token self.old.depth) }
        ensures due { IfSome result (λ token. self.new.is_due ≡ divides text.now self.old.depth token) }
        ensures scope { server_set text.now self.new ≡ server_set text.now self.old }
    {
        let token = self.left.next()?;
        let is_server = self.is_due && names_server(token.kind, bytes_of(text, &token));
        self.sets_server = self.sets_server || is_server;
        self.is_due = is_symbol(text, &token, b',') && self.depth == 0;
        self.depth = deeper(text, &token, self.depth);
        Some(token)
    }

    // Appends the tokens before the next comma outside brackets, and takes the comma. So many are kept at most. Whether
    // such a comma is there.
    pub(crate) fn next_part(
        &mut self,
        text: &[u8],
        part: &mut Vec<Token>,
    ) -> Result<bool, OutOfMemory>
        requires { length part.old.items ≤ 65 }
        ensures part { OnOk result (part.new.items ≡ take 65 (part.old.items ++ before_comma text.now self.old.depth self.old.left)) }
        ensures rest { IfOk result (λ more. behind_comma text.now self.old.depth self.old.left ≡ (if more then Some self.new.left else None)) }
        ensures shorter { IfOk result (λ more. more ≡ true → length self.new.left < length self.old.left) }
        ensures outside { IfOk result (λ more. more ≡ true → self.new.depth ≡ 0) }
        ensures scope { server_set text.now self.new ≡ server_set text.now self.old }
    {
        'tokens: while let Some(token) = self.next(text) {
            if self.is_due {
                return Ok(true);
            }
            if part.len() < MOST_KEPT {
                part.push(token)?;
            }
        }
        Ok(false)
    }

    // Whether a token, of those that were taken or are left, sets anything of the whole server.
    pub(crate) fn sets_server(mut self, text: &[u8]) -> bool
        ensures { result ≡ server_set text.now self.entry }
    {
        while self.next(text).is_some() {}
        self.sets_server
    }
}
