// What a message asks a server for.
ghost use Rattle.std.specs.Prelude.{◌≡◌, ◌∷◌, IfOk};
ghost use Rattle.packet_frame.specs.Packets.{spelling};
ghost use Rattle.std.specs.Option.{option_copied};
ghost use Rattle.client_seat.specs.Requests.{IsAsked, kind_of, text_in};

use crate::arguments::Args;
use crate::bytes::first_byte;
use command_parse::{COM_FIELD_LIST, COM_INIT_DB, COM_QUERY, COM_STMT_PREPARE};
use mx_base::OutOfMemory;
use packet_frame::write_message;
use reply_track::ReplyKind;
use std::alloc::Global;

/// What a message asks a server for.
#[derive(Drop)]
pub enum Request {
    /// A text, the choice of a schema, the question for a table's columns or the preparation of a text, in packets as a server
    /// reads them, the first with the sequence id 0, and what kind of reply is due (client/server protocol, "MySQL Packets").
    Text { kind: ReplyKind, packets: Vec<u8> },
    /// The run of the prepared statement that has this key.
    Run { key: u64, args: Args },
}

// What kind of reply a command has that is sent as a text; None where it isn't.
fn kind_of(byte: u8) -> Option<ReplyKind>
    ensures { result ≡ kind_of byte }
{
    match byte {
        COM_QUERY | COM_INIT_DB => Some(ReplyKind::Command),
        COM_FIELD_LIST => Some(ReplyKind::Fields),
        COM_STMT_PREPARE => Some(ReplyKind::Prepare),
        _ => None,
    }
}

// The packets of a command with this first byte, and this text behind it.
fn with_text(alloc: Global, byte: u8, text: &[u8]) -> Result<Vec<u8>, OutOfMemory>
    ensures { IfOk result (λ packets. packets.items ≡ spelling 0 (byte ∷ text.now)) }
{
    let mut payload = Vec::with_capacity(alloc, text.len() + 1)?;
    payload.push(byte)?;
    payload.extend_from_slice(text)?;
    let mut packets = Vec::new(alloc);
    write_message(&mut packets, 0, &payload)?;
    Ok(packets)
}

/// What a message asks for that isn't an execute, with its text as rules rewrite it. None where it asks a server for nothing.
pub(crate) fn text_request(
    alloc: Global,
    payload: &[u8],
    text: Option<&[u8]>,
) -> Result<Option<Request>, OutOfMemory>
    ensures { IfOk result (λ request.
        IsAsked (text_in payload.now (option_copied text.entry)) request) }
{
    let byte = first_byte(payload);
    let Some(kind) = kind_of(byte) else {
        return Ok(None);
    };
    let packets = match text {
        Some(text) => with_text(alloc, byte, text)?,
        None => {
            let mut packets = Vec::new(alloc);
            write_message(&mut packets, 0, payload)?;
            packets
        }
    };
    Ok(Some(Request::Text { kind, packets }))
}
