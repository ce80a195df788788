// Assignments of a SET statement, behind its SET.
ghost use Rattle.std.specs.Prelude.{◌≡◌, ◌≤◌, ◌<◌, true, false, [], ◌++◌, take, length, Some, None, option_map, IfOk, OnOk, if◌then◌else◌};
ghost use Rattle.std.specs.Option.{ForSome, option_to_list};
ghost use Rattle.session_vars.specs.Assignments.{slot_of_variable, slot_of_name, slot_by, change_to, written, assigned, is_executed, named_change, assignment, part_changes, assignments};
ghost use Rattle.session_vars.specs.Names.{names_changes};
ghost use Rattle.sql_tokens.specs.Words.{is_symbol_kind};
ghost use Rattle.session_vars.specs.Scopes.{before_comma, behind_comma, server_set};

use crate::modes::joined;
use crate::names::names_value;
use crate::set_tokens::SetTokens;
use crate::statement::is_session_word;
use crate::value::{negative_value, value_of};
use crate::{Change, Changes, Slot, SlotValue};
use mx_base::{Bytes, OutOfMemory};
use sql_tokens::{
    Token, TokenKind, behind, bytes_of, front, inside, is_symbol, same_text, word_of,
};
use std::alloc::Global;

// The tokens of most assignments.
const FEW: usize = 6;

// The setting of `@@session.name`, `@@local.name` or `@@name`.
#[tactic(auto, unfolding(crate::specs::Assignments::slot_of_variable))]
fn slot_of_variable(variable: &[u8]) -> Option<Slot>
    ensures { result ≡ slot_of_variable variable.now }
{
    if same_text(front(variable, 10), b"@@session.") {
        Slot::named(behind(variable, 10))
    } else if same_text(front(variable, 8), b"@@local.") {
        Slot::named(behind(variable, 8))
    } else {
        Slot::named(behind(variable, 2))?.unless_transaction()
    }
}

// The setting of a bare name.
fn slot_of_name(text: &[u8], token: &Token) -> Option<Slot>
    ensures { result ≡ slot_of_name text.now token.now }
{
    Slot::named(word_of(text, token)?)
}

// The setting of a name or a variable.
fn slot_by(kind: TokenKind, bytes: &[u8]) -> Option<Slot>
    ensures { result ≡ slot_by kind bytes.now }
{
    match kind {
        TokenKind::SysVar => slot_of_variable(bytes),
        TokenKind::Word => Slot::named(bytes),
        TokenKind::Name => Slot::named(inside(bytes)),
        _ => None,
    }
}

fn change_to(slot: Slot, value: Option<SlotValue>) -> Option<Change>
    ensures { result ≡ change_to slot value }
{
    match value {
        Some(value) => Some(Change {
            slot,
            value,
            adds: false,
        }),
        None => None,
    }
}

// The value.
#[tactic(auto, using(crate::proofs::Adding::joined_of), unfolding(crate::specs::Assignments::written))]
fn written(
    alloc: Global,
    text: &[u8],
    slot: Slot,
    tokens: &[Token],
) -> Result<Option<Change>, OutOfMemory>
    ensures { IfOk result (λ change. change ≡ written text.now slot tokens.now) }
{
    match tokens {
        [] => Ok(None),
        [value] => {
            let value = value_of(alloc, slot, value.kind, bytes_of(text, value))?;
            Ok(change_to(slot, value))
        }
        [minus, value] if is_symbol(text, minus, b'-') => {
            let value = negative_value(alloc, slot, value.kind, bytes_of(text, value))?;
            Ok(change_to(slot, value))
        }
        [_, _] => Ok(None),
        _ => joined(alloc, text, slot, tokens),
    }
}

// `=`, or `:=`, between whose bytes nothing stands, and the value.
#[tactic(auto, unfolding(crate::specs::Assignments::assigned, crate::specs::Assignments::behind_colon))]
fn assigned(
    alloc: Global,
    text: &[u8],
    slot: Option<Slot>,
    tokens: &[Token],
) -> Result<Option<Change>, OutOfMemory>
    ensures { IfOk result (λ change. change ≡ assigned text.now slot tokens.now) }
{
    let Some(slot) = slot else {
        return Ok(None);
    };
    match tokens {
        [equals, value @ ..] if is_symbol(text, equals, b'=') => written(alloc, text, slot, value),
        [colon, equals, value @ ..]
            if is_symbol(text, colon, b':')
                && is_symbol(text, equals, b'=')
                && colon.end == equals.start => { written(alloc, text, slot, value) }
        _ => Ok(None),
    }
}

fn is_executed(kind: TokenKind) -> bool
    ensures { result ≡ is_executed kind }
{
    kind == TokenKind::Executed
}

// What stands behind a name of this setting, or behind the first of two comments that name one.
#[tactic(auto, unfolding(crate::specs::Assignments::named_change))]
fn named_change(
    alloc: Global,
    text: &[u8],
    slot: Option<Slot>,
    name: &Token,
    tokens: &[Token],
) -> Result<Option<Change>, OutOfMemory>
    ensures { IfOk result (λ change. change ≡ named_change text.now slot name.now tokens.now) }
{
    match tokens {
        [] => Ok(None),
        [next, rest @ ..] if is_executed(name.kind) => {
            let slot = Slot::of_comments(bytes_of(text, name), bytes_of(text, next));
            assigned(alloc, text, slot, rest)
        }
        _ => assigned(alloc, text, slot, tokens),
    }
}

// One assignment: SESSION or LOCAL and a name, or a name or variable alone, or two comments in its place; and what is assigned.
#[tactic(auto, unfolding(crate::specs::Assignments::assignment))]
fn assignment(alloc: Global, text: &[u8], tokens: &[Token]) -> Result<Option<Change>, OutOfMemory>
    ensures { IfOk result (λ change. change ≡ assignment text.now tokens.now) }
{
    match tokens {
        [scope, name, rest @ ..] if is_session_word(text, scope) => {
            named_change(alloc, text, slot_of_name(text, name), name, rest)
        }
        [name, rest @ ..] if !rest.is_empty() => {
            let slot = slot_by(name.kind, bytes_of(text, name));
            named_change(alloc, text, slot, name, rest)
        }
        _ => Ok(None),
    }
}

// The tokens of an assignment, of which this one was taken.
fn begun(alloc: Global, taken: Option<Token>) -> Result<Vec<Token>, OutOfMemory>
    ensures { IfOk result (λ part. part.items ≡ option_to_list taken) }
{
    let mut part = Vec::with_capacity(alloc, FEW)?;
    if let Some(token) = taken {
        part.push(token)?;
    }
    Ok(part)
}

// Appends the changes of SET NAMES, which sets character_set_results and collation_connection too.
fn push_names(changes: &mut Changes, value: Bytes) -> Result<(), OutOfMemory>
    ensures { OnOk result (Some changes.new ≡ option_map (λ more. changes.old ++ more) (names_changes (Some value))) }
{
    changes.push(Change {
        slot: Slot::Names,
        value: SlotValue::Text(value),
        adds: false,
    })?;
    changes.push(Change {
        slot: Slot::CharacterSetResults,
        value: SlotValue::Default,
        adds: false,
    })?;
    changes.push(Change {
        slot: Slot::CollationConnection,
        value: SlotValue::Default,
        adds: false,
    })?;
    Ok(())
}

// Appends the changes of one part, which may be that of SET NAMES. Whether it is one that is tracked.
fn push_part(
    alloc: Global,
    text: &[u8],
    tokens: &[Token],
    changes: &mut Changes,
) -> Result<bool, OutOfMemory>
    ensures { IfOk result (λ is. option_map (λ more. changes.old ++ more) (part_changes text.now tokens.now) ≡ (if is then Some changes.new else None)) }
{
    if let Some(value) = names_value(alloc, text, tokens)? {
        push_names(changes, value)?;
        return Ok(true);
    }
    let Some(change) = assignment(alloc, text, tokens)? else {
        return Ok(false);
    };
    changes.push(change)?;
    Ok(true)
}

// Appends the changes of the next part, to the next comma, of which these tokens were taken. Whether it is one that is
// tracked, and whether a comma was there.
#[tactic(auto, using(crate::proofs::Parts::part_front))]
fn next_changes(
    alloc: Global,
    text: &[u8],
    part: &mut Vec<Token>,
    tokens: &mut SetTokens,
    changes: &mut Changes,
) -> Result<(bool, bool), OutOfMemory>
    requires { length part.old.items ≤ 65 }
    ensures changes { IfOk result (λ next. option_map (λ more. changes.old ++ more) (part_changes text.now (part.old.items ++ before_comma text.now tokens.old.depth tokens.old.left)) ≡ (if next.0 then Some changes.new else None)) }
    ensures rest { IfOk result (λ next. behind_comma text.now tokens.old.depth tokens.old.left ≡ (if next.1 then Some tokens.new.left else None)) }
    ensures shorter { IfOk result (λ next. next.1 ≡ true → length tokens.new.left < length tokens.old.left) }
    ensures outside { IfOk result (λ next. next.1 ≡ true → tokens.new.depth ≡ 0) }
    ensures empty { OnOk result (part.new.items ≡ []) }
    ensures scope { server_set text.now tokens.new ≡ server_set text.now tokens.old }
{
    let more = tokens.next_part(text, part)?;
    let is_tracked = push_part(alloc, text, part, changes)?;
    part.clear();
    Ok((is_tracked, more))
}

// Assignments and SET NAMES with commas between them, to the end. Of the first one a token may have been taken, which is no
// symbol.
pub(crate) fn assignments(
    alloc: Global,
    text: &[u8],
    taken: Option<Token>,
    tokens: &mut SetTokens,
) -> Result<Option<Changes>, OutOfMemory>
    requires taken { ForSome taken (λ token. is_symbol_kind token.kind ≡ false) }
    requires outside { tokens.old.depth ≡ 0 }
    ensures changes { IfOk result (λ changes. changes ≡ assignments text.now (option_to_list taken ++ tokens.old.left)) }
    ensures scope { server_set text.now tokens.new ≡ server_set text.now tokens.old }
{
    let mut changes = Changes::new(alloc);
    let mut part = begun(alloc, taken)?;
    let mut more = true;
    'parts: while more {
        let (is_tracked, next) = next_changes(alloc, text, &mut part, tokens, &mut changes)?;
        if !is_tracked {
            return Ok(None);
        }
        more = next;
    }
    Ok(Some(changes))
}
