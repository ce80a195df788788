// The errors that the router itself answers.
ghost use Rattle.std.specs.Prelude.{◌≡◌, ◌++◌, OnOk, IfOk, string_bytes};
ghost use Rattle.packet_frame.specs.Packets.{spelling};
ghost use Rattle.reply_text.specs.Replies.{err_payload};
ghost use Rattle.client_session.specs.Errors.{own_ok, access_denied, shown, denied_text, unserved_text, unknown_character_set};
ghost use Rattle.client_session.specs.Errors.{bad_bytes_text, too_large_text, out_of_order_text};
ghost use Rattle.client_session.specs.Refusals.{payload_of};

use mx_base::OutOfMemory;
use packet_frame::FrameFault;
use reply_text::{write_err, write_ok};
use std::alloc::Global;

/// An error that the router itself answers, as an ERR packet (MySQL Reference Manual, "Server Error Message
/// Reference"; the numbers from 9100 on are the router's own).
#[derive(Clone, Copy)]
pub enum Refusal {
    /// 1040: there is no room for one client more.
    TooManyConnections,
    /// 1047: a command that the router doesn't take.
    UnknownCommand,
    /// 9109: a message that is no command.
    MalformedCommand,
    /// 1043: a response that can't be read.
    BadHandshake,
    /// 9100: a query, where no server is configured.
    NoServer,
    /// 9101: the server's link was lost before its reply was whole.
    ConnectionLost,
    /// 9103: no link to the server could be opened.
    ConnectionRefused,
    /// 9110: bytes of a server that are no reply, from this place of the reply on, counted from 0.
    BadServerBytes { place: u64 },
    /// 1153: a message longer than the limit, or 1156: a packet out of order.
    Frame { fault: FrameFault, limit: u64 },
}

// The texts that have numbers in them.
#[tactic(auto, unfolding(crate::specs::Errors::bad_bytes_text))]
fn bad_bytes_text(alloc: Global, place: u64) -> Result<String, OutOfMemory>
    ensures { IfOk result (λ text. string_bytes text ≡ bad_bytes_text place) }
{
    Ok(format!(in alloc; "Bad server bytes at {place}")?)
}

#[tactic(auto, unfolding(crate::specs::Errors::too_large_text))]
fn too_large_text(alloc: Global, length: u64, limit: u64) -> Result<String, OutOfMemory>
    ensures { IfOk result (λ text. string_bytes text ≡ too_large_text length limit) }
{
    Ok(format!(in alloc; "Packet of {length} bytes is larger than {limit}")?)
}

#[tactic(auto, unfolding(crate::specs::Errors::out_of_order_text))]
fn out_of_order_text(alloc: Global, expected: u8, found: u8) -> Result<String, OutOfMemory>
    ensures { IfOk result (λ text. string_bytes text ≡ out_of_order_text expected found) }
{
    Ok(format!(in alloc; "Packet {found} came where {expected} was due")?)
}

// An ERR appended to `out`.
fn put(
    out: &mut Vec<u8>,
    first: u8,
    code: u16,
    state: &[u8; 5],
    text: &[u8],
) -> Result<(), OutOfMemory>
    ensures { OnOk result (out.new.items ≡ out.old.items ++ spelling first (err_payload code state.now text.now)) }
{
    let _ = write_err(out, first, code, state, text)?;
    Ok(())
}

// A fault of framing appended to `out`, as write_refusal appends it.
#[tactic(auto, unfolding(crate::specs::Errors::packet_too_large, crate::specs::Errors::packet_out_of_order))]
fn write_frame_fault(
    alloc: Global,
    out: &mut Vec<u8>,
    first: u8,
    fault: FrameFault,
    limit: u64,
) -> Result<(), OutOfMemory>
    ensures { OnOk result (out.new.items ≡ out.old.items ++ spelling first (payload_of (Refusal.Frame fault limit))) }
{
    match fault {
        FrameFault::TooLarge { length } => {
            let text = too_large_text(alloc, length, limit)?;
            put(out, first, 1153, b"08S01", text.as_bytes())
        }
        FrameFault::OutOfOrder { expected, found } => {
            let text = out_of_order_text(alloc, expected, found)?;
            put(out, first, 1156, b"08S01", text.as_bytes())
        }
    }
}

/// A refusal appended to `out` as one message that begins with the sequence id `first`.
#[tactic(auto, unfolding(crate::specs::Errors::too_many_connections, crate::specs::Errors::unknown_command, crate::specs::Errors::malformed_command, crate::specs::Errors::bad_handshake, crate::specs::Errors::no_server, crate::specs::Errors::connection_lost, crate::specs::Errors::connection_refused, crate::specs::Errors::bad_server_bytes))]
pub fn write_refusal(
    alloc: Global,
    out: &mut Vec<u8>,
    first: u8,
    refusal: Refusal,
) -> Result<(), OutOfMemory>
    ensures { OnOk result (out.new.items ≡ out.old.items ++ spelling first (payload_of refusal)) }
{
    match refusal {
        Refusal::TooManyConnections => put(out, first, 1040, b"08004", b"Too many connections"),
        Refusal::UnknownCommand => put(out, first, 1047, b"08S01", b"Unknown command"),
        Refusal::MalformedCommand => put(out, first, 9109, b"HY000", b"Malformed command"),
        Refusal::BadHandshake => put(out, first, 1043, b"08S01", b"Bad handshake"),
        Refusal::NoServer => put(out, first, 9100, b"HY000", b"No server in hostgroup 0"),
        Refusal::ConnectionLost => put(out, first, 9101, b"HY000", b"Server connection lost"),
        Refusal::ConnectionRefused => put(out, first, 9103, b"HY000", b"Server connection refused"),
        Refusal::BadServerBytes { place } => {
            let text = bad_bytes_text(alloc, place)?;
            put(out, first, 9110, b"HY000", text.as_bytes())
        }
        Refusal::Frame { fault, limit } => write_frame_fault(alloc, out, first, fault, limit),
    }
}

/// SERVER_STATUS_AUTOCOMMIT (client/server protocol, "SERVER_STATUS_flags_enum").
const AUTOCOMMIT: u16 = 0x0002;

/// The router's own OK, appended to `out` as one message with the sequence id `first`.
#[tactic(auto, unfolding(crate::specs::Errors::own_ok))]
pub fn write_own_ok(out: &mut Vec<u8>, first: u8) -> Result<(), OutOfMemory>
    ensures { OnOk result (out.new.items ≡ out.old.items ++ spelling first own_ok) }
{
    let _ = write_ok(out, first, AUTOCOMMIT, b"")?;
    Ok(())
}

// The name, or its first 64 bytes.
fn shown(name: &[u8]) -> &[u8]
    ensures { result.now ≡ shown name.now }
{
    if name.len() > 64 {
        name.split_at(64).0
    } else {
        name
    }
}

// The text of 1045.
#[tactic(auto, unfolding(crate::specs::Errors::denied_text))]
fn denied_text(alloc: Global, name: &[u8]) -> Result<Vec<u8>, OutOfMemory>
    ensures { IfOk result (λ text. text.items ≡ denied_text name.now) }
{
    let mut text = b"Access denied for user '".to_vec(alloc)?;
    text.extend_from_slice(shown(name))?;
    text.extend_from_slice(b"'")?;
    Ok(text)
}

// Error 1045 appended to `out`: the user isn't known, or its answer is wrong.
#[tactic(auto, unfolding(crate::specs::Errors::access_denied))]
pub(crate) fn write_denied(
    alloc: Global,
    out: &mut Vec<u8>,
    first: u8,
    name: &[u8],
) -> Result<(), OutOfMemory>
    ensures { OnOk result (out.new.items ≡ out.old.items ++ spelling first (access_denied name.now)) }
{
    let text = denied_text(alloc, name)?;
    let _ = write_err(out, first, 1045, b"28000", &text)?;
    Ok(())
}

// The text of 1115.
#[tactic(auto, unfolding(crate::specs::Errors::unserved_text))]
fn unserved_text(alloc: Global, collation: u8) -> Result<String, OutOfMemory>
    ensures { IfOk result (λ text. string_bytes text ≡ unserved_text collation) }
{
    Ok(format!(in alloc; "Unknown character set: '{collation}'")?)
}

// Error 1115 appended to `out`: the collation is none that is served.
#[tactic(auto, unfolding(crate::specs::Errors::unknown_character_set))]
pub(crate) fn write_unserved(
    alloc: Global,
    out: &mut Vec<u8>,
    first: u8,
    collation: u8,
) -> Result<(), OutOfMemory>
    ensures { OnOk result (out.new.items ≡ out.old.items ++ spelling first (unknown_character_set collation)) }
{
    let text = unserved_text(alloc, collation)?;
    put(out, first, 1115, b"42000", text.as_bytes())
}
