// SET statements that are read.
ghost use Rattle.std.specs.Prelude.{◌≡◌, ◌∷◌, ◌++◌, true, length, filter, slice_get, Some, IfOk, OnOk};
ghost use Rattle.std.specs.List.{list_any};
ghost use Rattle.session_vars.specs.Modes.{takes_modes as is_mode};
ghost use Rattle.session_vars.specs.Scopes.{server_set};
ghost use Rattle.session_vars.specs.Shapes.{own_changes, own_shape, set_shape, sets_mode_once, tracked_or_other, with_last_mode};
ghost use Rattle.session_vars.specs.Statement.{begins_with_session};
ghost use Rattle.session_vars.specs.Transactions.{mode_changes};

use crate::assignment::assignments;
use crate::modes::takes_modes;
use crate::set_tokens::SetTokens;
use crate::statement::says_there;
use crate::transaction::{Mode, mode_of};
use crate::{Change, Changes, SetShape, SlotValue};
use mx_base::{Bytes, OutOfMemory};
use sql_tokens::Token;
use std::alloc::Global;

fn mode_changes(alloc: Global, mode: Option<Mode>) -> Result<Option<Changes>, OutOfMemory>
    ensures { IfOk result (λ changes. changes ≡ mode_changes mode) }
{
    let Some(mode) = mode else {
        return Ok(None);
    };
    let mut changes = Changes::new(alloc);
    changes.push(Change {
        slot: mode.slot(),
        value: SlotValue::Text(Bytes::from_slice(alloc, mode.value())?),
        adds: false,
    })?;
    Ok(Some(changes))
}

// The changes of SET SESSION TRANSACTION, or of assignments the first of which is scoped.
fn scoped_changes(
    alloc: Global,
    text: &[u8],
    tokens: &mut SetTokens,
) -> Result<Option<Changes>, OutOfMemory>
    requires scope { begins_with_session text.now tokens.old.left ≡ true }
    requires outside { tokens.old.depth ≡ 0 }
    ensures changes { IfOk result (λ changes. changes ≡ own_changes text.now tokens.old.left) }
    ensures scope { server_set text.now tokens.new ≡ server_set text.now tokens.old }
{
    let scope = tokens.next(text);
    if says_there(text, tokens.left.first(), b"TRANSACTION") {
        let _transaction = tokens.next(text);
        mode_changes(alloc, mode_of(text, tokens))
    } else {
        assignments(alloc, text, scope, tokens)
    }
}

// The changes of SET SESSION TRANSACTION, or of SET NAMES and assignments, by the tokens behind SET.
fn own_changes(
    alloc: Global,
    text: &[u8],
    first: Option<Token>,
    tokens: &mut SetTokens,
) -> Result<Option<Changes>, OutOfMemory>
    requires first { first ≡ slice_get tokens.old.left 0 }
    requires outside { tokens.old.depth ≡ 0 }
    ensures changes { IfOk result (λ changes. changes ≡ own_changes text.now tokens.old.left) }
    ensures scope { server_set text.now tokens.new ≡ server_set text.now tokens.old }
{
    if says_there(text, first, b"SESSION") || says_there(text, first, b"LOCAL") {
        return scoped_changes(alloc, text, tokens);
    }
    assignments(alloc, text, None, tokens)
}

// Whether the mode is set once, where it is set by an expression over the mode before.
#[tactic(auto, unfolding(crate::specs::Shapes::sets_mode_once))]
fn sets_mode_once(changes: &[Change]) -> bool
    ensures { result ≡ sets_mode_once changes.now }
{
    mode_changes_in(changes) <= 1 || !any_adds(changes)
}

// Whether a value is an expression over the one before it.
fn any_adds(changes: &[Change]) -> bool
    ensures { result ≡ list_any (λ change. change.adds) changes.now }
{
    changes.iter().any(|change| change.adds)
}

// How often the mode is set.
fn mode_changes_in(changes: &[Change]) -> usize
    ensures { result ≡ length (filter (λ change. is_mode change.slot) changes.now) }
{
    changes
        .iter()
        .filter(|change| takes_modes(change.slot))
        .count()
}

// Whether the mode is among these.
fn sets_mode(changes: &[Change]) -> bool
    ensures { result ≡ list_any (λ change. is_mode change.slot) changes.now }
{
    changes.iter().any(|change| takes_modes(change.slot))
}

// Appends a copy of a change, unless it is one of the mode and a later one is too.
fn push_unless_set_again(
    alloc: Global,
    kept: &mut Changes,
    change: &Change,
    later: &[Change],
) -> Result<(), OutOfMemory>
    ensures { OnOk result (kept.new ++ with_last_mode later.now ≡ kept.old ++ with_last_mode (change.now ∷ later.now)) }
{
    if !takes_modes(change.slot) || !sets_mode(later) {
        kept.push(change.copy(alloc)?)?;
    }
    Ok(())
}

// Copies of the changes without those of the mode behind which another one stands.
fn with_last_mode(alloc: Global, changes: &[Change]) -> Result<Changes, OutOfMemory>
    ensures { IfOk result (λ kept. kept ≡ with_last_mode changes.now) }
{
    let mut kept = Changes::new(alloc);
    let mut left = changes;
    while let [change, later @ ..] = left {
        push_unless_set_again(alloc, &mut kept, change, later)?;
        left = later;
    }
    Ok(kept)
}

// The shape of a statement that makes these changes.
fn tracked(alloc: Global, changes: Changes) -> Result<SetShape, OutOfMemory>
    ensures { IfOk result (λ shape. shape ≡ tracked_or_other (Some changes)) }
{
    if sets_mode_once(changes.as_slice()) {
        Ok(SetShape::Tracked(changes))
    } else {
        Ok(SetShape::Tracked(with_last_mode(alloc, changes.as_slice())?))
    }
}

// The shape, by the tokens behind SET, where nothing is set of the whole server.
fn own_shape(alloc: Global, text: &[u8], tokens: &mut SetTokens) -> Result<SetShape, OutOfMemory>
    requires { tokens.old.depth ≡ 0 }
    ensures shape { IfOk result (λ shape. shape ≡ own_shape text.now tokens.old.left) }
    ensures scope { server_set text.now tokens.new ≡ server_set text.now tokens.old }
{
    let first = tokens.left.first();
    if says_there(text, first, b"TRANSACTION") {
        return Ok(SetShape::NextTransaction);
    }
    match own_changes(alloc, text, first, tokens)? {
        Some(changes) => tracked(alloc, changes),
        None => Ok(SetShape::Other),
    }
}

/// What a statement is, as a SET statement (MySQL Reference Manual, "SET Syntax for Variable Assignment" and "SET
/// NAMES"). Each value is kept as it is written, a quoted one in `'`, and the names of a character set and a collation
/// in lower case.
pub fn read_set(alloc: Global, text: &[u8]) -> Result<SetShape, OutOfMemory>
    ensures { IfOk result (λ shape. shape ≡ set_shape text.now) }
{
    let Some(mut tokens) = SetTokens::of(text) else {
        return Ok(SetShape::NotSet);
    };
    let shape = own_shape(alloc, text, &mut tokens)?;
    if tokens.sets_server(text) {
        Ok(SetShape::Global)
    } else {
        Ok(shape)
    }
}
