// How commands are spelt: as packets from the sequence id 0 on.
ghost use Rattle.std.specs.Prelude.{◌≡◌, ◌∷◌, ◌++◌, [], ℕ, OnOk, IfOk, codes, decimal};
ghost use Rattle.std.specs.List.{flat_map};
ghost use Rattle.link_state.specs.Spells.{args_bytes, execute_bytes, executes, long_bytes, spelt, spelt_on, types_bytes, with_number};

use itoa::Buffer;
use mx_base::{Bytes, OutOfMemory};
use packet_frame::write_message;
use session_vars::LongPart;
use std::alloc::Global;

/// A payload as packets (client/server protocol, "MySQL Packets").
pub fn spell(alloc: Global, payload: &[u8]) -> Result<Bytes, OutOfMemory>
    ensures { IfOk result (λ whole. whole ≡ spelt payload.now) }
{
    spell_on(Vec::new(alloc), payload)
}

// A payload as packets behind others.
fn spell_on(mut bytes: Vec<u8>, payload: &[u8]) -> Result<Bytes, OutOfMemory>
    ensures { IfOk result (λ whole. whole ≡ spelt_on bytes.items payload.now) }
{
    write_message(&mut bytes, 0, payload)?;
    Ok(Bytes::from_vec(bytes))
}

/// A command of this code with a text.
pub fn spell_text(alloc: Global, code: u8, text: &[u8]) -> Result<Bytes, OutOfMemory>
    ensures { IfOk result (λ whole. whole ≡ spelt (code ∷ text.now)) }
{
    let mut payload = Vec::from_slice(alloc, &[code])?;
    payload.extend_from_slice(text)?;
    spell(alloc, &payload)
}

// The text that sets the insert id.
fn id_text(alloc: Global, id: u64) -> Result<Vec<u8>, OutOfMemory>
    ensures { IfOk result (λ text. text.items ≡ codes "SET SESSION last_insert_id = " ++ decimal id) }
{
    let mut digits = Buffer::new();
    let mut text = Vec::from_slice(alloc, b"SET SESSION last_insert_id = ")?;
    text.extend_from_slice(digits.format(id).as_bytes())?;
    Ok(text)
}

/// COM_QUERY with the text that sets the insert id.
pub fn spell_id(alloc: Global, id: u64) -> Result<Bytes, OutOfMemory>
    ensures { IfOk result (λ whole. whole ≡ spelt (3 ∷ (codes "SET SESSION last_insert_id = " ++ decimal id))) }
{
    let text = id_text(alloc, id)?;
    spell_text(alloc, 3, &text)
}

// A command for a prepared statement.
fn with_number(code: u8, number: u32) -> [u8; 5]
    ensures { result ≡ with_number code number }
{
    [
        code,
        (number % 256) as u8,
        (number / 256 % 256) as u8,
        (number / 65536 % 256) as u8,
        (number / 16777216 % 256) as u8,
    ]
}

/// A command of this code for the prepared statement of a number.
pub fn spell_numbered(alloc: Global, code: u8, number: u32) -> Result<Bytes, OutOfMemory>
    ensures { IfOk result (λ whole. whole ≡ spelt (with_number code number)) }
{
    spell(alloc, &with_number(code, number))
}

// COM_STMT_SEND_LONG_DATA, as packets behind others.
fn spell_long(
    alloc: Global,
    bytes: &mut Vec<u8>,
    number: u32,
    part: &LongPart,
) -> Result<(), OutOfMemory>
    ensures { OnOk result (bytes.new.items ≡ bytes.old.items ++ long_bytes number part.now) }
{
    let mut payload = Vec::from_slice(alloc, &with_number(0x18, number))?;
    payload.push((part.parameter % 256) as u8)?;
    payload.push((part.parameter / 256 % 256) as u8)?;
    payload.extend_from_slice(part.bytes.as_slice())?;
    write_message(bytes, 0, &payload)?;
    Ok(())
}

// Long data of each parameter that has some.
fn spell_parts(alloc: Global, number: u32, parts: &[LongPart]) -> Result<Vec<u8>, OutOfMemory>
    ensures { IfOk result (λ bytes. bytes.items ≡ flat_map (long_bytes number) parts.now) }
{
    let mut bytes = Vec::new(alloc);
    for part in parts {
        spell_long(alloc, &mut bytes, number, part)?;
    }
    Ok(bytes)
}

// Which parameters are NULL, the types and the values; nothing, where the statement has no parameters.
fn push_args(
    payload: &mut Vec<u8>,
    nulls: &[u8],
    types: &Option<Bytes>,
    values: &[u8],
) -> Result<(), OutOfMemory>
    ensures { OnOk result (payload.new.items ≡ payload.old.items ++ args_bytes nulls.now types.now values.now) }
{
    if nulls.is_empty() {
        return Ok(());
    }
    payload.extend_from_slice(nulls)?;
    push_types(payload, types)?;
    payload.extend_from_slice(values)?;
    Ok(())
}

fn push_types(payload: &mut Vec<u8>, types: &Option<Bytes>) -> Result<(), OutOfMemory>
    ensures { OnOk result (payload.new.items ≡ payload.old.items ++ types_bytes types.now) }
{
    match types {
        None => payload.push(0)?,
        Some(types) => {
            payload.push(1)?;
            payload.extend_from_slice(types.as_slice())?;
        }
    }
    Ok(())
}

/// COM_STMT_EXECUTE of the statement of a number, with no cursor and for one iteration, and before it each parameter's long data in one
/// piece (client/server protocol, "COM_STMT_SEND_LONG_DATA", "COM_STMT_EXECUTE").
pub fn spell_execute(
    alloc: Global,
    number: u32,
    nulls: &[u8],
    types: &Option<Bytes>,
    values: &[u8],
    parts: &[LongPart],
) -> Result<Bytes, OutOfMemory>
    ensures { IfOk result (λ whole. whole ≡ executes number nulls.now types.now values.now parts.now) }
{
    let mut payload = Vec::from_slice(alloc, &with_number(0x17, number))?;
    payload.extend_from_slice(&[0, 1, 0, 0, 0])?;
    push_args(&mut payload, nulls, types, values)?;
    spell_on(spell_parts(alloc, number, parts)?, &payload)
}
