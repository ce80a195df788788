// What a message makes of its client's prepared statements.
ghost use Rattle.std.specs.Prelude.{◌≡◌, true, false, slice_index_or, IfOk, OnOk};
ghost use Rattle.client_seat.specs.Numbers.{AreBound, AreNoted, number_in, types_by};
ghost use Rattle.client_seat.specs.Requests.{IsAsked, run_in};

use crate::arguments::{Args, given_in};
use crate::bytes::{behind, first_byte};
use crate::request::Request;
use command_parse::{
    COM_RESET_CONNECTION, COM_STMT_CLOSE, COM_STMT_RESET, COM_STMT_SEND_LONG_DATA,
};
use mx_base::{Bytes, OutOfMemory, get_u16, get_u32};
use std::alloc::Global;
use stmt_map::{ClientStatements, LongFault};

// Long data come for a parameter; those of one that isn't there are dropped.
fn lengthen(
    alloc: Global,
    statements: &mut ClientStatements,
    payload: &[u8],
) -> Result<(), OutOfMemory>
    requires { slice_index_or payload.now 0 0 ≡ 0x18 }
    ensures { OnOk result (AreNoted true payload.now statements.old statements.new) }
{
    let (Some(number), Some(parameter)) = (get_u32(payload, 1), get_u16(payload, 5)) else {
        return Ok(());
    };
    let Some(statement) = statements.find(number) else {
        return Ok(());
    };
    if parameter >= statement.prepared.params {
        return Ok(());
    }
    let bytes = behind(payload, 7);
    match statements.append_long(alloc, number, parameter, bytes, u64::MAX) {
        Ok(()) => Ok(()),
        Err(LongFault::TooLong | LongFault::OutOfMemory) => Err(OutOfMemory),
    }
}

// A statement's long data are forgotten.
fn shorten(alloc: Global, statements: &mut ClientStatements, payload: &[u8])
    requires { slice_index_or payload.now 0 0 ≡ 0x1A }
    ensures { AreNoted true payload.now statements.old statements.new }
{
    if let Some(number) = get_u32(payload, 1) {
        statements.use_up(alloc, number);
    }
}

// A statement is closed.
fn close(statements: &mut ClientStatements, payload: &[u8])
    requires { slice_index_or payload.now 0 0 ≡ 0x19 }
    ensures { AreNoted true payload.now statements.old statements.new }
{
    if let Some(number) = get_u32(payload, 1) {
        statements.close(number);
    }
}

// The client begins anew.
fn clear(statements: &mut ClientStatements, payload: &[u8])
    requires { slice_index_or payload.now 0 0 ≡ 0x1F }
    ensures { AreNoted true payload.now statements.old statements.new }
{
    statements.clear();
}

/// A message is taken up that the router answers itself.
pub(crate) fn note(
    alloc: Global,
    statements: &mut ClientStatements,
    payload: &[u8],
) -> Result<(), OutOfMemory>
    ensures { OnOk result (AreNoted true payload.now statements.old statements.new) }
{
    match first_byte(payload) {
        COM_STMT_SEND_LONG_DATA => lengthen(alloc, statements, payload),
        COM_STMT_RESET => {
            shorten(alloc, statements, payload);
            Ok(())
        }
        COM_STMT_CLOSE => {
            close(statements, payload);
            Ok(())
        }
        COM_RESET_CONNECTION => {
            clear(statements, payload);
            Ok(())
        }
        _ => Ok(()),
    }
}

// The types of an execute: those that it sends, which are bound from now on, or else those that are bound.
fn bind_types(
    alloc: Global,
    statements: &mut ClientStatements,
    number: u32,
    sent: &Option<Bytes>,
) -> Result<Option<Bytes>, OutOfMemory>
    ensures types { IfOk result (λ types. types ≡ types_by sent.now (number_in statements.old number)) }
    ensures bound { OnOk result (AreBound number sent.now statements.old statements.new) }
{
    match sent {
        Some(types) => {
            statements.bind(alloc, number, types.as_slice())?;
            Ok(Some(Bytes::from_slice(alloc, types.as_slice())?))
        }
        None => bound_types(alloc, statements, number),
    }
}

// The types that are bound.
fn bound_types(
    alloc: Global,
    statements: &ClientStatements,
    number: u32,
) -> Result<Option<Bytes>, OutOfMemory>
    ensures { IfOk result (λ types. types ≡ types_by None (number_in statements.now number)) }
{
    match statements.find(number) {
        Some(statement) => copy_of(alloc, &statement.types),
        None => Ok(None),
    }
}

fn copy_of(alloc: Global, types: &Option<Bytes>) -> Result<Option<Bytes>, OutOfMemory>
    ensures { IfOk result (λ copy. copy ≡ types.now) }
{
    match types {
        Some(types) => Ok(Some(Bytes::from_slice(alloc, types.as_slice())?)),
        None => Ok(None),
    }
}

/// An execute is taken up that goes to a server: it binds the types that it sends, and uses the long data up. None where
/// nothing stands under its number.
pub(crate) fn run(
    alloc: Global,
    statements: &mut ClientStatements,
    payload: &[u8],
) -> Result<Option<Request>, OutOfMemory>
    requires { slice_index_or payload.now 0 0 ≡ 0x17 }
    ensures asked { IfOk result (λ request. IsAsked (run_in statements.old payload.now) request) }
    ensures noted { OnOk result (AreNoted false payload.now statements.old statements.new) }
{
    let Some(number) = get_u32(payload, 1) else {
        return Ok(None);
    };
    let Some(statement) = statements.find(number) else {
        return Ok(None);
    };
    let key = statement.prepared.key;
    let params = statement.prepared.params;
    let sent = given_in(alloc, params, payload)?;
    let types = bind_types(alloc, statements, number, &sent.types)?;
    let long = statements.take_long(alloc, number);
    let args = Args {
        types,
        long,
        ..sent
    };
    Ok(Some(Request::Run { key, args }))
}
