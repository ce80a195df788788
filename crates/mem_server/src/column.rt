// Columns, and what tells of them.
ghost use Rattle.std.specs.Prelude.{◌≡◌, ◌++◌, ◌∷◌, [], IfOk, OnOk, map};
ghost use Rattle.mem_rule.specs.Answers.{column_payload, eof_payload};
ghost use Rattle.mem_rule.specs.Commands.{columns_of, definitions};

use crate::note::put_text;
use mem_rule::Form;
use mx_base::{Bytes, Items, OutOfMemory};
use server_rule::ReplyList;
use std::alloc::Global;

pub(crate) fn put_copy(
    alloc: Global,
    out: &mut Items<Bytes>,
    bytes: &[u8],
) -> Result<(), OutOfMemory>
    ensures { OnOk result (out.new ≡ out.old ++ bytes.now ∷ []) }
{
    out.push(Bytes::from_slice(alloc, bytes)?)
}

pub(crate) fn names(alloc: Global, list: &[&[u8]]) -> Result<Items<Bytes>, OutOfMemory>
    ensures { IfOk result (λ names. names ≡ map (λ name. name.now) list.now) }
{
    let mut out = Items::new(alloc);
    for name in list {
        put_copy(alloc, &mut out, name)?;
    }
    Ok(out)
}

// The names of the columns that a statement shows.
pub(crate) fn columns_of(alloc: Global, form: Form) -> Result<Items<Bytes>, OutOfMemory>
    ensures { IfOk result (λ names. names ≡ columns_of form) }
{
    match form {
        Form::Select => names(alloc, &[b"v"]),
        Form::Count => names(alloc, &[b"COUNT(*)"]),
        Form::Setting => names(alloc, &[b"setting"]),
        Form::Variable => names(alloc, &[b"variable"]),
        Form::Id => names(alloc, &[b"LAST_INSERT_ID()"]),
        Form::Lock => names(alloc, &[b"GET_LOCK"]),
        Form::Warnings => names(alloc, &[b"Level", b"Code", b"Message"]),
        _ => names(alloc, &[]),
    }
}

// The definition of a column.
fn column_payload(alloc: Global, name: &[u8]) -> Result<Bytes, OutOfMemory>
    ensures { IfOk result (λ payload. payload ≡ column_payload name.now) }
{
    let mut out = Vec::new(alloc);
    out.extend_from_slice(&[3, b'd', b'e', b'f', 0, 0, 0])?;
    put_text(&mut out, name)?;
    out.extend_from_slice(&[0, 12, 45, 0, 0, 4, 0, 0, 253, 0, 0, 0, 0, 0])?;
    Ok(Bytes::from_vec(out))
}

fn put_column(alloc: Global, out: &mut ReplyList, name: &Bytes) -> Result<(), OutOfMemory>
    ensures { OnOk result (out.new ≡ out.old ++ column_payload name.now ∷ []) }
{
    out.push(column_payload(alloc, name.as_slice())?)
}

pub(crate) fn put_columns(
    alloc: Global,
    out: &mut ReplyList,
    columns: &[Bytes],
) -> Result<(), OutOfMemory>
    ensures { OnOk result (out.new ≡ out.old ++ map column_payload columns.now) }
{
    for name in columns {
        put_column(alloc, out, name)?;
    }
    Ok(())
}

pub(crate) fn put_eof(alloc: Global, out: &mut ReplyList, status: u8) -> Result<(), OutOfMemory>
    ensures { OnOk result (out.new ≡ out.old ++ eof_payload status ∷ []) }
{
    out.push(Bytes::from_slice(alloc, &[0xFE, 0, 0, status, 0])?)
}

// Definitions of columns or parameters, and an EOF, where there are any.
pub(crate) fn put_definitions(
    alloc: Global,
    out: &mut ReplyList,
    status: u8,
    names: &[Bytes],
) -> Result<(), OutOfMemory>
    ensures { OnOk result (out.new ≡ out.old ++ definitions status names.now) }
{
    if names.is_empty() {
        return Ok(());
    }
    put_columns(alloc, out, names)?;
    put_eof(alloc, out, status)
}
