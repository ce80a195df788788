// What the router itself answers, as packets.
ghost use Rattle.std.specs.Prelude.{◌≡◌, ◌++◌, [], ◌∷◌, codes, map, string_bytes, IfOk, OnOk, Some};
ghost use Rattle.packet_frame.specs.Packets.{spelling, spellings};
ghost use Rattle.std.specs.Fmt.{decimal};
ghost use Rattle.reply_text.specs.Tables.{row_payload};
ghost use Rattle.router_promises.specs.Errors.{own_error};
ghost use Rattle.message_judge.specs.Told.{payload_of, payloads_of};
ghost use Rattle.message_judge.specs.declared.told.Told.TheVariants as told;

use crate::told::{OwnError, Told};
use client_session::{Refusal, write_refusal};
use mx_base::{Bytes, ClientNo, OutOfMemory};
use reply_text::{Table, write_err, write_ok, write_table};
use std::alloc::Global;

/// The state of the router's own errors, which is that of errors that have no other.
const GENERAL: &[u8; 5] = b"HY000";

/// What is told, appended to `out` as messages that begin with the sequence id `first`; `number` is the client's (client/server protocol,
/// "OK_Packet", "ERR_Packet" and "Text Resultset"). OutOfMemory leaves `out` with some bytes of it.
pub fn write_told(
    alloc: Global,
    out: &mut Vec<u8>,
    first: u8,
    number: ClientNo,
    told: &Told,
) -> Result<(), OutOfMemory>
    ensures { OnOk result (out.new.items ≡ out.old.items ++ spellings first (payloads_of number.0 told.now)) }
{
    match told {
        Told::Nothing => Ok(()),
        Told::Ok { status, info } => {
            let _ = write_ok(out, first, *status, info.as_slice())?;
            Ok(())
        }
        Told::ConnectionId { status } => write_number(alloc, out, first, number, *status),
        Told::Error(why) => write_error(alloc, out, first, why),
    }
}

// The table of `SELECT CONNECTION_ID()`: one row with the client's number.
fn number_table(alloc: Global, number: ClientNo) -> Result<Table, OutOfMemory>
    ensures columns { IfOk result (λ table. table.columns.items ≡ codes "CONNECTION_ID()" ∷ []) }
    ensures rows { IfOk result (λ table. map (λ row. row.items) table.rows.items ≡ (Some (decimal number.0) ∷ []) ∷ []) }
    ensures payloads { IfOk result (λ table. map (λ row. row_payload row.items) table.rows.items
        ≡ row_payload (Some (decimal number.0) ∷ []) ∷ []) }
{
    let text = format!(in alloc; "{}", number.0)?;
    let mut cells = Vec::new(alloc);
    cells.push(Some(Bytes::from_slice(alloc, text.as_bytes())?))?;
    let mut rows = Vec::new(alloc);
    rows.push(cells)?;
    let mut columns = Vec::new(alloc);
    columns.push(Bytes::from_slice(alloc, b"CONNECTION_ID()")?)?;
    Ok(Table { columns, rows })
}

fn write_number(
    alloc: Global,
    out: &mut Vec<u8>,
    first: u8,
    number: ClientNo,
    status: u16,
) -> Result<(), OutOfMemory>
    ensures { OnOk result (out.new.items ≡ out.old.items ++ spellings first (payloads_of number.0 (told.ConnectionId status))) }
{
    let table = number_table(alloc, number)?;
    let _ = write_table(out, first, status, &table)?;
    Ok(())
}

// The texts that have a number.

fn unknown_text(alloc: Global, number: u32) -> Result<String, OutOfMemory>
    ensures { IfOk result (λ text. string_bytes text ≡ codes "Unknown prepared statement " ++ decimal number) }
{
    Ok(format!(in alloc; "Unknown prepared statement {number}")?)
}

fn no_server_text(alloc: Global, hostgroup: u16) -> Result<String, OutOfMemory>
    ensures { IfOk result (λ text. string_bytes text ≡ codes "No server in hostgroup " ++ decimal hostgroup) }
{
    Ok(format!(in alloc; "No server in hostgroup {hostgroup}")?)
}

// An error of the router's own whose text is this.
fn write_own(out: &mut Vec<u8>, first: u8, code: u16, text: &[u8]) -> Result<(), OutOfMemory>
    ensures { OnOk result (out.new.items ≡ out.old.items ++ spelling first (own_error code text.now)) }
{
    let _ = write_err(out, first, code, GENERAL, text)?;
    Ok(())
}

#[tactic(auto, unfolding(router_promises::specs::Errors::refused_by_rule, router_promises::specs::Errors::unknown_statement, router_promises::specs::Errors::no_server_in, router_promises::specs::Errors::diagnostics_gone, router_promises::specs::Errors::names_connection, router_promises::specs::Errors::sets_server, router_promises::specs::Errors::too_many_statements))]
fn write_error(
    alloc: Global,
    out: &mut Vec<u8>,
    first: u8,
    why: &OwnError,
) -> Result<(), OutOfMemory>
    ensures { OnOk result (out.new.items ≡ out.old.items ++ spelling first (payload_of why.now)) }
{
    match why {
        OwnError::RefusedByRule(text) => {
            let _ = write_err(out, first, 1148, b"42000", text.as_slice())?;
            Ok(())
        }
        OwnError::UnknownStatement(number) => {
            let text = unknown_text(alloc, *number)?;
            write_own(out, first, 1243, text.as_bytes())
        }
        OwnError::NoServerIn(hostgroup) => {
            let text = no_server_text(alloc, hostgroup.0)?;
            write_own(out, first, 9100, text.as_bytes())
        }
        OwnError::DiagnosticsGone => write_own(out, first, 9106, b"Diagnostics are gone"),
        OwnError::NamesConnection => write_own(out, first, 9107, b"Statement names a connection"),
        OwnError::SetsServer => write_own(out, first, 9108, b"Global settings are not set here"),
        OwnError::TooManyStatements => {
            write_own(out, first, 9113, b"Too many prepared statements")
        }
        OwnError::MalformedCommand => {
            write_refusal(alloc, out, first, Refusal::MalformedCommand)
        }
        OwnError::UnknownCommand => write_refusal(alloc, out, first, Refusal::UnknownCommand),
    }
}
