// The changes that lead from settings to others.
ghost use Rattle.std.specs.Prelude.{◌≡◌, ◌∷◌, ◌++◌, List, IsTrue, IfOk, OnOk};
ghost use Rattle.session_vars.specs.declared.slot.Slot.{Slot};
ghost use Rattle.session_vars.specs.Settings.{is_text, value_at, same_value, differs, is_taken_back, names_differ, results_differ, has_to_change, changes_of, difference_of};

use crate::{Change, Changes, Settings, Slot, SlotValue};
use mx_base::OutOfMemory;
use std::alloc::Global;

fn same_value(a: &SlotValue, b: &SlotValue) -> bool
    ensures { result ≡ same_value a.now b.now }
{
    match (a, b) {
        (SlotValue::Default, SlotValue::Default) => true,
        (SlotValue::Text(a), SlotValue::Text(b)) => a.as_slice() == b.as_slice(),
        _ => false,
    }
}

// Whether the values are the same.
fn are_same(from: &[SlotValue], to: &[SlotValue]) -> bool
    ensures { IsTrue result → from.now ≡ to.now }
{
    if from.len() != to.len() {
        return false;
    }
    for place in 0..from.len() {
        if !same_value(&from[place], &to[place]) {
            return false;
        }
    }
    true
}

fn differs(from: &Settings, to: &Settings, slot: Slot) -> bool
    ensures { result ≡ differs from.now to.now slot }
{
    !same_value(from.value(slot), to.value(slot))
}

// Whether it has to become as SET NAMES leaves it.
fn is_taken_back(from: &Settings, to: &Settings, slot: Slot) -> bool
    ensures { result ≡ is_taken_back from.now to.now slot }
{
    from.value(slot).is_text() && !to.value(slot).is_text()
}

// SET NAMES is needed also where one of those that it sets too has to.
#[tactic(auto, unfolding(crate::specs::Settings::names_differ))]
fn names_differ(from: &Settings, to: &Settings) -> bool
    ensures { result ≡ names_differ from.now to.now }
{
    differs(from, to, Slot::Names)
        || is_taken_back(from, to, Slot::CharacterSetResults)
        || is_taken_back(from, to, Slot::CollationConnection)
}

// SET NAMES takes it with it.
#[tactic(auto, unfolding(crate::specs::Settings::results_differ))]
fn results_differ(from: &Settings, to: &Settings, slot: Slot) -> bool
    ensures { result ≡ results_differ from.now to.now slot }
{
    differs(from, to, slot) || (names_differ(from, to) && to.value(slot).is_text())
}

fn has_to_change(from: &Settings, to: &Settings, slot: Slot) -> bool
    ensures { result ≡ has_to_change from.now to.now slot }
{
    match slot {
        Slot::Names => names_differ(from, to),
        Slot::CharacterSetResults | Slot::CollationConnection => results_differ(from, to, slot),
        _ => differs(from, to, slot),
    }
}

// Appends the change of a setting that has to change.
fn push_change(
    alloc: Global,
    changes: &mut Changes,
    from: &Settings,
    to: &Settings,
    slot: Slot,
) -> Result<(), OutOfMemory>
    ensures { OnOk result ((rest : List Slot) → changes.new ++ changes_of from.now to.now rest ≡ changes.old ++ changes_of from.now to.now (slot ∷ rest)) }
{
    if has_to_change(from, to, slot) {
        changes.push(Change {
            slot,
            value: to.value(slot).copy(alloc)?,
            adds: false,
        })?;
    }
    Ok(())
}

/// The changes that lead from settings to others: those of the settings that differ, in order. `Names` is among them
/// also where `CharacterSetResults` or `CollationConnection` has to become as SET NAMES leaves it, and each of these two also where
/// `Names` is among them and it is wanted as a text. `Names` has to be wanted as a text.
pub fn difference(alloc: Global, from: &Settings, to: &Settings) -> Result<Changes, OutOfMemory>
    requires { IsTrue (is_text (value_at to.now Slot.Names)) }
    ensures { IfOk result (λ changes. changes ≡ difference_of from.now to.now) }
{
    let mut changes = Changes::new(alloc);
    if are_same(from.kept(), to.kept()) {
        return Ok(changes);
    }
    for slot in &Slot::ALL {
        push_change(alloc, &mut changes, from, to, *slot)?;
    }
    Ok(changes)
}
