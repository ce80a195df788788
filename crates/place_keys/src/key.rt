// Keys of places and of statements.
ghost use Rattle.std.specs.Prelude.{◌≡◌, ◌++◌, OnOk, IfOk};
ghost use Rattle.place_keys.specs.Keys.{place_key, spelled, value_key};

use mx_base::{Bytes, OutOfMemory};
use session_vars::{Settings, Slot, SlotValue};
use std::alloc::Global;

/// What a prepared statement goes by: its text, and the number of the place at which it was prepared.
#[derive(PartialEq, Eq, Hash, Drop)]
pub struct StatementKey {
    pub place: u32,
    pub text: Bytes,
}

/// The bytes that a place goes by, its schema and its settings: equal places have equal ones, and different places different ones.
pub fn place_key(alloc: Global, schema: &[u8], settings: &Settings) -> Result<Bytes, OutOfMemory>
    ensures { IfOk result (λ key. key ≡ place_key schema.now settings.now) }
{
    let mut key = Vec::new(alloc);
    put_text(&mut key, schema)?;
    for slot in Slot::ALL {
        put_value(&mut key, settings.value(slot))?;
    }
    Ok(Bytes::from_vec(key))
}

fn put_value(key: &mut Vec<u8>, value: &SlotValue) -> Result<(), OutOfMemory>
    ensures { OnOk result (key.new.items ≡ key.old.items ++ value_key value.now) }
{
    match value {
        SlotValue::Default => {
            key.extend_from_slice(&[1, 2])?;
            Ok(())
        }
        SlotValue::Text(text) => put_text(key, text.as_slice()),
    }
}

// A text and its end. The bytes 0, the end, and 1 stand behind a 1.
fn put_text(key: &mut Vec<u8>, text: &[u8]) -> Result<(), OutOfMemory>
    ensures { OnOk result (key.new.items ≡ key.old.items ++ spelled text.now) }
{
    for byte in text {
        if *byte <= 1 {
            key.push(1)?;
        }
        key.push(*byte)?;
    }
    key.push(0)?;
    Ok(())
}
