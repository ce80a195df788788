// The statements that change settings.
ghost use Rattle.std.specs.Prelude.{◌≡◌, OnOk, IfOk, nat_eq, reverse, find};
ghost use Rattle.std.specs.List.{list_any};
ghost use Rattle.std.specs.Option.{option_copied};
ghost use Rattle.session_vars.specs.Texts.{is_names, is_default_value, is_results_default, value_text, names_statement, names_text, is_assigned, server_name, written_name, assignment_text, session_text, with_assignment, has_names, leaves_results, takes_names_back, any_takes_names_back, can_be_set, CanBeSet};

use crate::{Change, Slot, SlotValue};
use mx_base::{Bytes, OutOfMemory};
use std::alloc::Global;

/// The statements that make changes: SET NAMES, and SET SESSION for the rest, each where it has anything to set.
#[derive(Drop)]
pub struct SetTexts {
    pub names: Option<Bytes>,
    pub session: Option<Bytes>,
}

fn is_names(slot: Slot) -> bool
    ensures { result ≡ is_names slot }
{
    slot == Slot::Names
}

fn is_default_value(value: &SlotValue) -> bool
    ensures { result ≡ is_default_value value.now }
{
    match value {
        SlotValue::Default => true,
        SlotValue::Text(_) => false,
    }
}

// Whether SET SESSION makes this change.
fn is_assigned(change: &Change) -> bool
    ensures { result ≡ is_assigned change.now }
{
    match change.slot {
        Slot::Names => false,
        Slot::CharacterSetResults | Slot::CollationConnection => !is_default_value(&change.value),
        _ => true,
    }
}

fn value_text(value: &SlotValue) -> &[u8]
    ensures { result.now ≡ value_text value.now }
{
    match value {
        SlotValue::Default => b"DEFAULT",
        SlotValue::Text(text) => text.as_slice(),
    }
}

fn last_names(changes: &[Change]) -> Option<&Change>
    ensures { option_copied result ≡ find (λ change. is_names change.slot) (reverse changes.now) }
{
    changes.iter().rev().find(|change| is_names(change.slot))
}

fn names_statement(alloc: Global, change: &Change) -> Result<Bytes, OutOfMemory>
    ensures { IfOk result (λ text. text ≡ names_statement change.now) }
{
    let mut text = Bytes::from_slice(alloc, b"SET NAMES ")?;
    text.append(value_text(&change.value))?;
    Ok(text)
}

fn names_text(alloc: Global, changes: &[Change]) -> Result<Option<Bytes>, OutOfMemory>
    ensures { IfOk result (λ text. text ≡ names_text changes.now) }
{
    match last_names(changes) {
        Some(change) => Ok(Some(names_statement(alloc, change)?)),
        None => Ok(None),
    }
}

// Whether a value is a collation's name, and no character set's.
fn has_underscore(bytes: &[u8]) -> bool
    ensures { result ≡ list_any (nat_eq 95) bytes.now }
{
    bytes.iter().any(|byte| 95 == *byte)
}

// The name by which the server's character set is given this value, or its collation.
fn server_name(value: &SlotValue) -> &'static [u8]
    ensures { result.now ≡ server_name value.now }
{
    match value {
        SlotValue::Default => b"character_set_server",
        SlotValue::Text(text) => {
            if has_underscore(text.as_slice()) {
                b"collation_server"
            } else {
                b"character_set_server"
            }
        }
    }
}

// The name by which a setting is given this value.
fn written_name(slot: Slot, value: &SlotValue) -> &'static [u8]
    ensures { result.now ≡ written_name slot value.now }
{
    match slot {
        Slot::CharacterSetServer => server_name(value),
        _ => slot.spelt_name(),
    }
}

// Appends an assignment, where SET SESSION makes this change.
fn push_assignment(text: &mut Bytes, change: &Change) -> Result<(), OutOfMemory>
    ensures { OnOk result (text.new ≡ with_assignment text.old change.now) }
{
    if !is_assigned(change) {
        return Ok(());
    }
    let before: &[u8] = if text.as_slice().is_empty() {
        b"SET SESSION "
    } else {
        b", "
    };
    text.append(before)?;
    text.append(written_name(change.slot, &change.value))?;
    text.append(b" = ")?;
    text.append(value_text(&change.value))?;
    Ok(())
}

fn session_text(alloc: Global, changes: &[Change]) -> Result<Option<Bytes>, OutOfMemory>
    ensures { IfOk result (λ text. text ≡ session_text changes.now) }
{
    let mut text = Bytes::new(alloc);
    for change in changes {
        push_assignment(&mut text, change)?;
    }
    if text.as_slice().is_empty() {
        Ok(None)
    } else {
        Ok(Some(text))
    }
}

fn is_results_default(change: &Change) -> bool
    ensures { result ≡ is_results_default change.now }
{
    match change.slot {
        Slot::CharacterSetResults | Slot::CollationConnection => is_default_value(&change.value),
        _ => false,
    }
}

fn has_names(changes: &[Change]) -> bool
    ensures { result ≡ has_names changes.now }
{
    changes.iter().any(|change| is_names(change.slot))
}

fn leaves_results(changes: &[Change]) -> bool
    ensures { result ≡ leaves_results changes.now }
{
    changes.iter().any(|change| is_results_default(change))
}

fn takes_names_back(change: &Change) -> bool
    ensures { result ≡ takes_names_back change.now }
{
    is_names(change.slot) && is_default_value(&change.value)
}

fn any_takes_names_back(changes: &[Change]) -> bool
    ensures { result ≡ any_takes_names_back changes.now }
{
    changes.iter().any(|change| takes_names_back(change))
}

/// Whether two statements can make these changes: `Names` is among them as no default, and is among them where
/// `CharacterSetResults` or `CollationConnection` becomes a default. Takes no memory.
pub fn can_be_set(changes: &[Change]) -> bool
    ensures { result ≡ can_be_set changes.now }
{
    !any_takes_names_back(changes) && (has_names(changes) || !leaves_results(changes))
}

/// The statements that make these changes (MySQL Reference Manual, "SET NAMES" and "SET Syntax for Variable
/// Assignment"): SET NAMES by the last change of `Names`, and SET SESSION with the others in order, where a default is
/// DEFAULT. `CharacterSetResults` and `CollationConnection` as defaults stand in neither, since SET NAMES leaves them so. No change makes `Names` a
/// default, and one makes it a text where one makes one of these two a default.
pub fn set_texts(alloc: Global, changes: &[Change]) -> Result<SetTexts, OutOfMemory>
    requires { CanBeSet changes.now }
    ensures names { IfOk result (λ texts. texts.names ≡ names_text changes.now) }
    ensures session { IfOk result (λ texts. texts.session ≡ session_text changes.now) }
{
    Ok(SetTexts {
        names: names_text(alloc, changes)?,
        session: session_text(alloc, changes)?,
    })
}
