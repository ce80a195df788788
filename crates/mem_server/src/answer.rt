// The payloads of answers.
ghost use Rattle.std.specs.Prelude.{◌≡◌, ◌<◌, ◌++◌, ◌∷◌, [], IfOk, OnOk, if◌then◌else◌};
ghost use Rattle.mx_base.specs.Fields.{lenenc};
ghost use Rattle.mem_rule.specs.Answers.{binary_row, diag_of, ok_payload, payloads_of, row_payloads, status, table_payloads};

use crate::column::{put_columns, put_eof};
use crate::fault::{err_payload, fault_bytes};
use crate::scene::is_off;
use mem_rule::Answer;
use mx_base::{Bytes, OutOfMemory, put_lenenc};
use server_rule::ReplyList;
use session_vars::Settings;
use std::alloc::Global;

// The status flags behind a statement that leaves this transaction and these settings.
pub(crate) fn status(tx: &Bytes, settings: &Settings) -> u8
    ensures value { result ≡ status tx.now settings.now }
    ensures bound { result < 4 }
{
    let in_trans = if tx.as_slice().is_empty() { 0 } else { 1 };
    let autocommit = if is_off(settings) { 0 } else { 2 };
    in_trans + autocommit
}

pub(crate) fn lone(alloc: Global, payload: Bytes) -> Result<ReplyList, OutOfMemory>
    ensures { IfOk result (λ out. out ≡ payload ∷ []) }
{
    let mut out = ReplyList::new(alloc);
    out.push(payload)?;
    Ok(out)
}

// An OK.
pub(crate) fn ok_reply(
    alloc: Global,
    status: u8,
    rows: u64,
    id: u64,
) -> Result<ReplyList, OutOfMemory>
    ensures { IfOk result (λ out. out ≡ ok_payload status rows id ∷ []) }
{
    let mut out = Vec::new(alloc);
    out.push(0)?;
    put_lenenc(&mut out, rows)?;
    put_lenenc(&mut out, id)?;
    out.extend_from_slice(&[status, 0, 0, 0])?;
    lone(alloc, Bytes::from_vec(out))
}

fn binary_row(alloc: Global, row: &[u8]) -> Result<Bytes, OutOfMemory>
    ensures { IfOk result (λ out. out ≡ binary_row row.now) }
{
    if matches!(row.first(), Some(251)) {
        return Bytes::from_slice(alloc, &[0, 4]);
    }
    let mut out = Bytes::from_slice(alloc, &[0, 0])?;
    out.append(row)?;
    Ok(out)
}

fn row_payload(alloc: Global, is_binary: bool, row: &[u8]) -> Result<Bytes, OutOfMemory>
    ensures { IfOk result (λ out. out ≡ (if is_binary then binary_row row.now else row.now)) }
{
    if is_binary {
        binary_row(alloc, row)
    } else {
        Bytes::from_slice(alloc, row)
    }
}

fn put_row(
    alloc: Global,
    out: &mut ReplyList,
    is_binary: bool,
    row: &Option<Bytes>,
) -> Result<(), OutOfMemory>
    ensures { OnOk result (out.new ≡ out.old ++ row_payloads is_binary row.now) }
{
    match row {
        None => Ok(()),
        Some(row) => out.push(row_payload(alloc, is_binary, row.as_slice())?),
    }
}

// How many columns there are.
fn count_payload(alloc: Global, count: usize) -> Result<ReplyList, OutOfMemory>
    ensures { IfOk result (λ out. out ≡ lenenc count ∷ []) }
{
    let mut out = Vec::new(alloc);
    put_lenenc(&mut out, count as u64)?;
    lone(alloc, Bytes::from_vec(out))
}

fn table_payloads(
    alloc: Global,
    is_binary: bool,
    status: u8,
    columns: &[Bytes],
    row: &Option<Bytes>,
) -> Result<ReplyList, OutOfMemory>
    ensures { IfOk result (λ out. out ≡ table_payloads is_binary status columns.now row.now) }
{
    let mut out = count_payload(alloc, columns.len())?;
    put_columns(alloc, &mut out, columns)?;
    put_eof(alloc, &mut out, status)?;
    put_row(alloc, &mut out, is_binary, row)?;
    put_eof(alloc, &mut out, status)?;
    Ok(out)
}

// The payloads of an answer, with these status flags. Rows are binary for a prepared statement.
pub(crate) fn payloads(
    alloc: Global,
    is_binary: bool,
    status: u8,
    answer: &Answer,
) -> Result<ReplyList, OutOfMemory>
    ensures { IfOk result (λ out. out ≡ payloads_of is_binary status answer.now) }
{
    match answer {
        Answer::Done { rows, id } => ok_reply(alloc, status, *rows, *id),
        Answer::Shown { columns, row } => table_payloads(
            alloc,
            is_binary,
            status,
            columns.as_slice(),
            row,
        ),
        Answer::Refused { fault } => lone(alloc, err_payload(alloc, *fault)?),
    }
}

// What an answer leaves to be shown.
pub(crate) fn diag(alloc: Global, answer: &Answer) -> Result<Bytes, OutOfMemory>
    ensures { IfOk result (λ diag. diag ≡ diag_of answer.now) }
{
    match answer {
        Answer::Refused { fault } => fault_bytes(alloc, *fault),
        _ => Ok(Bytes::new(alloc)),
    }
}
