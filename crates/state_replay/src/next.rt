// The next step.
ghost use Rattle.std.specs.Prelude.{◌≡◌, IsTrue, IfOk, OnOk, OnErr};
ghost use Rattle.session_vars.specs.Settings.{difference_of, is_text, value_at};
ghost use Rattle.state_replay.specs.Steps.{after, id_step, needs_schema, next_step, place_step, preparation_step, settings_step, text_step};

use crate::calm::calm;
use crate::step::Step;
use mx_base::{Bytes, OutOfMemory};
use session_state::{Place, Told};
use session_vars::{SetShape, SetTexts, Settings, Slot, difference, read_set, set_texts};
use std::alloc::Global;

/// What goes to a link next for a statement that is prepared there, if it has to be: the step to its place, or to its insert id, or the
/// statement. `known` is the insert id that the link is known to have, `wanted` the one that the statement has to find, None where it
/// finds none or may find any. SET NAMES can't take names back, so the place has them as a text.
pub fn next_step(
    alloc: Global,
    told: &Told,
    place: &Place,
    known: Option<u64>,
    wanted: Option<u64>,
) -> Result<Step, OutOfMemory>
    requires { IsTrue (is_text (value_at place.now.settings Slot.Names)) }
    ensures { IfOk result (λ step. step ≡ next_step told.now place.now known wanted) }
{
    match place_step(alloc, told, place)? {
        Some(step) => Ok(step),
        None => Ok(id_step(known, wanted)),
    }
}

/// What goes to a link next for a statement that isn't prepared there: the step to the place of its preparation, or the preparation. Its
/// autocommit stays as the link was told.
pub fn preparation_step(alloc: Global, told: &Told, place: &Place) -> Result<Step, OutOfMemory>
    requires { IsTrue (is_text (value_at place.now.settings Slot.Names)) }
    ensures { IfOk result (λ step. step ≡ preparation_step told.now place.now) }
{
    if needs_schema(told, &place.schema) {
        return Ok(Step::InitDb(Bytes::from_slice(alloc, place.schema.as_slice())?));
    }
    let settings = calm(alloc, &place.settings, &told.settings)?;
    match settings_step(alloc, &told.settings, &settings)? {
        Some(step) => Ok(step),
        None => Ok(Step::Prepare),
    }
}

/// What a step leaves of what a link was told, where it is answered OK. OutOfMemory changes nothing.
pub fn after(alloc: Global, told: &mut Told, step: &Step) -> Result<(), OutOfMemory>
    ensures ok { OnOk result (told.new ≡ after told.old step.now) }
    ensures err { OnErr result (told.new ≡ told.old) }
{
    match step {
        Step::InitDb(schema) => {
            let schema = Bytes::from_slice(alloc, schema.as_slice())?;
            told.schema = Some(schema);
            Ok(())
        }
        Step::SetText(text) => {
            if let SetShape::Tracked(changes) = read_set(alloc, text.as_slice())? {
                told.settings.apply(changes.as_slice())?;
            }
            Ok(())
        }
        _ => Ok(()),
    }
}

fn needs_schema(told: &Told, schema: &Bytes) -> bool
    ensures { result ≡ needs_schema told.now.schema schema.now }
{
    match &told.schema {
        Some(other) => other.as_slice() != schema.as_slice() && !schema.as_slice().is_empty(),
        None => !schema.as_slice().is_empty(),
    }
}

fn place_step(alloc: Global, told: &Told, place: &Place) -> Result<Option<Step>, OutOfMemory>
    requires { IsTrue (is_text (value_at place.now.settings Slot.Names)) }
    ensures { IfOk result (λ step. step ≡ place_step told.now place.now) }
{
    if needs_schema(told, &place.schema) {
        return Ok(Some(Step::InitDb(Bytes::from_slice(alloc, place.schema.as_slice())?)));
    }
    settings_step(alloc, &told.settings, &place.settings)
}

fn settings_step(
    alloc: Global,
    told: &Settings,
    wanted: &Settings,
) -> Result<Option<Step>, OutOfMemory>
    requires { IsTrue (is_text (value_at wanted.now Slot.Names)) }
    ensures { IfOk result (λ step. step ≡ settings_step told.now wanted.now) }
{
    let changes = difference(alloc, told, wanted)?;
    let texts = set_texts(alloc, changes.as_slice())?;
    let SetTexts { names, session } = texts;
    Ok(text_step(names, session))
}

fn text_step(names: Option<Bytes>, session: Option<Bytes>) -> Option<Step>
    ensures { result ≡ text_step names session }
{
    match names {
        Some(text) => Some(Step::SetText(text)),
        None => match session {
            Some(text) => Some(Step::SetText(text)),
            None => None,
        },
    }
}

fn id_step(known: Option<u64>, wanted: Option<u64>) -> Step
    ensures { result ≡ id_step known wanted }
{
    match (wanted, known) {
        (None, _) => Step::Statement,
        (Some(n), None) => Step::SetId(n),
        (Some(n), Some(id)) => {
            if id == n {
                Step::Statement
            } else {
                Step::SetId(n)
            }
        }
    }
}
