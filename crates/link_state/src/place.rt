// Steps to a place.
ghost use Rattle.std.specs.Prelude.{◌≡◌, IsTrue, IfOk};
ghost use Rattle.session_vars.specs.Settings.{difference_of, is_text, value_at};
ghost use Rattle.session_vars.specs.Texts.{CanBeSet};
ghost use Rattle.link_state.specs.Places.{calm, calm_place, first_text, is_schema, place_wish, text_of};

use crate::wish::Wish;
use mx_base::{Bytes, OutOfMemory};
use session_state::{Place, Told};
use session_vars::{Change, SetTexts, Settings, Slot, difference, set_texts};
use std::alloc::Global;

fn is_schema(told: &Option<Bytes>, schema: &Bytes) -> bool
    ensures { result ≡ is_schema told.now schema.now }
{
    match told {
        Some(told) => told.as_slice() == schema.as_slice(),
        None => false,
    }
}

fn first_text(alloc: Global, names: Option<Bytes>, session: Option<Bytes>) -> Bytes
    ensures { result ≡ first_text names session }
{
    match names {
        Some(text) => text,
        None => match session {
            Some(text) => text,
            None => Bytes::new(alloc),
        },
    }
}

// The text that leads from settings to others, or the first of two; None where they are the same.
fn settings_text(
    alloc: Global,
    told: &Settings,
    wanted: &Settings,
) -> Result<Option<Bytes>, OutOfMemory>
    requires { IsTrue (is_text (value_at wanted.now Slot.Names)) }
    ensures { IfOk result (λ text. text ≡ text_of (difference_of told.now wanted.now)) }
{
    let changes = difference(alloc, told, wanted)?;
    text_of(alloc, changes.as_slice())
}

// The text that makes changes, or the first of two.
fn text_of(alloc: Global, changes: &[Change]) -> Result<Option<Bytes>, OutOfMemory>
    requires { CanBeSet changes.now }
    ensures { IfOk result (λ text. text ≡ text_of changes.now) }
{
    if changes.is_empty() {
        return Ok(None);
    }
    let texts = set_texts(alloc, changes)?;
    let SetTexts { names, session } = texts;
    Ok(Some(first_text(alloc, names, session)))
}

/// The step to a place.
pub(crate) fn place_wish(
    alloc: Global,
    told: &Told,
    place: &Place,
) -> Result<Option<Wish>, OutOfMemory>
    requires { IsTrue (is_text (value_at place.now.settings Slot.Names)) }
    ensures { IfOk result (λ wish. wish ≡ place_wish told.now place.now) }
{
    if !is_schema(&told.schema, &place.schema) {
        return Ok(Some(Wish::Schema(Bytes::from_slice(alloc, place.schema.as_slice())?)));
    }
    match settings_text(alloc, &told.settings, &place.settings)? {
        Some(text) => Ok(Some(Wish::Settings(text))),
        None => Ok(None),
    }
}

/// The settings, but with autocommit as a link was told: a SET of autocommit would end a transaction.
fn calm(alloc: Global, settings: &Settings, told: &Settings) -> Result<Settings, OutOfMemory>
    requires { IsTrue (is_text (value_at settings.now Slot.Names)) }
    ensures is { IfOk result (λ all. all ≡ calm settings.now told.now) }
    ensures names { IfOk result (λ all. IsTrue (is_text (value_at all Slot.Names))) }
{
    let value = told.value(Slot::Autocommit).copy(alloc)?;
    let change = Change {
        slot: Slot::Autocommit,
        value,
        adds: false,
    };
    let mut all = settings.copy()?;
    all.apply(&[change])?;
    Ok(all)
}

/// The place of a preparation, with autocommit as the link was told.
pub(crate) fn calm_place(alloc: Global, place: &Place, told: &Told) -> Result<Place, OutOfMemory>
    requires { IsTrue (is_text (value_at place.now.settings Slot.Names)) }
    ensures is { IfOk result (λ calmed. calmed ≡ calm_place place.now told.now) }
    ensures names { IfOk result (λ calmed. IsTrue (is_text (value_at calmed.settings Slot.Names))) }
{
    Ok(Place {
        schema: Bytes::from_slice(alloc, place.schema.as_slice())?,
        settings: calm(alloc, &place.settings, &told.settings)?,
    })
}
