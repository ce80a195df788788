// What an answer makes of what a link was told, of its insert id and of what is prepared there.
ghost use Rattle.std.specs.Prelude.{◌≡◌, OnOk};
ghost use Rattle.session_state.specs.Classes.{effect_of};
ghost use Rattle.link_state.specs.Answers.{affected, id_by, id_in, live_by, live_of_key, told_by};

use crate::asking::{Asking, Form, Purpose};
use crate::standing::Standing;
use mx_base::{Bytes, OutOfMemory};
use pin_classifier::{Class, Shape};
use session_state::{ReplyEnd, Told, insert_id_after, insert_id_prepared};
use session_vars::{SetShape, Settings};
use std::alloc::Global;

pub(crate) fn hear_told(
    alloc: Global,
    told: &mut Told,
    form: &Form,
    end: &ReplyEnd,
) -> Result<(), OutOfMemory>
    ensures { OnOk result (told.new ≡ told_by form.now end.now told.old) }
{
    match form {
        Form::Text(class) => take_effect(alloc, told, class, end.is_ok()),
        Form::Reset => {
            told.schema = None;
            told.settings = Settings::defaults(alloc)?;
            Ok(())
        }
        _ => Ok(()),
    }
}

// A text of this class was answered, by an OK or not.
fn take_effect(alloc: Global, told: &mut Told, class: &Class, ok: bool) -> Result<(), OutOfMemory>
    ensures { OnOk result (told.new ≡ affected (effect_of class.now) ok told.old) }
{
    match &class.shape {
        Shape::Use(schema) => {
            if ok {
                told.schema = Some(Bytes::from_slice(alloc, schema.as_slice())?);
            }
            Ok(())
        }
        Shape::Set(SetShape::Tracked(changes)) => {
            if ok {
                told.settings.apply(changes.as_slice())?;
            }
            Ok(())
        }
        _ => Ok(()),
    }
}

/// The insert id behind the answer to what was asked, which ended so, with this one number where it asked for one; `known` is the one
/// before, where it is known. Takes no memory.
pub fn hear_id(
    known: Option<u64>,
    asking: &Asking,
    end: &ReplyEnd,
    number: Option<u64>,
) -> Option<u64>
    ensures { result ≡ id_by asking.now end.now number known }
{
    match asking.purpose {
        Purpose::Prep { .. } => known,
        _ => id_after(known, &asking.form, end, number),
    }
}

fn id_after(known: Option<u64>, form: &Form, end: &ReplyEnd, number: Option<u64>) -> Option<u64>
    ensures { result ≡ id_in form.now end.now number known }
{
    match form {
        Form::Text(class) => insert_id_after(known, class, class.sets_id, end),
        Form::Fields => known,
        Form::Prepare(class) => insert_id_prepared(known, class, end),
        Form::SetId(n) => { if end.is_ok() { Some(*n) } else { known } }
        Form::ReadId => {
            if end.is_err() {
                known
            } else {
                number.or(known)
            }
        }
        Form::Reset => Some(0),
    }
}

pub(crate) fn hear_live(
    live: &mut Standing,
    asking: &Asking,
    end: &ReplyEnd,
) -> Result<(), OutOfMemory>
    ensures { OnOk result (live.new ≡ live_by asking.now end.now live.old) }
{
    match (asking.purpose, &asking.form) {
        (Purpose::Statement { key, .. }, Form::Prepare(_)) => put_if_made(live, key, end),
        (Purpose::Prep { key, .. }, _) => put_if_made(live, key, end),
        (Purpose::End { .. }, _) => {
            live.clear();
            Ok(())
        }
        _ => Ok(()),
    }
}

fn put_if_made(live: &mut Standing, key: u64, end: &ReplyEnd) -> Result<(), OutOfMemory>
    ensures { OnOk result (live.new ≡ live_of_key key end.now live.old) }
{
    if end.is_err() {
        Ok(())
    } else {
        live.put(key, end.server_number)
    }
}
