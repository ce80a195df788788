// A client's response.
ghost use Rattle.std.specs.Prelude.{◌≡◌, ◌≤◌, ◌++◌, [], length, unwrap_or, IfOk, OnOk, OnErr};
ghost use Rattle.std.specs.Option.{option_copied, ForSome};
ghost use Rattle.handshake.specs.Reading.{Gives, Takes};
ghost use Rattle.handshake.specs.Spelling.{IsText};
ghost use Rattle.handshake.specs.Response.{head_fields, response_of, answer_length, response_bytes, length_bytes};

use crate::HandFault;
use crate::capability::{
    CONNECT_ATTRS, CONNECT_WITH_DB, PLUGIN_AUTH, PLUGIN_AUTH_LENENC_CLIENT_DATA, has,
    needed_of_response,
};
use crate::cursor::Cursor;
use crate::put::{NUL, put_fields, text_field, under};
use mx_base::{Bytes, Field, OutOfMemory, get_lenenc, get_u8, put_lenenc};
use std::alloc::Global;

/// What a client answers to a greeting (client/server protocol, "Protocol::HandshakeResponse41").
#[derive(Drop)]
pub struct Response {
    /// The client's capabilities.
    pub capabilities: u32,
    /// The longest packet that the client wants to send.
    pub max_packet: u32,
    /// The client's collation, by its number.
    pub collation: u8,
    /// The user's name.
    pub user: Bytes,
    /// The answer to the greeting's salt.
    pub answer: Bytes,
    /// The schema to begin in, which stands in the payload under CONNECT_WITH_DB alone.
    pub schema: Option<Bytes>,
    /// The client's login method, which stands in the payload under PLUGIN_AUTH alone.
    pub plugin: Option<Bytes>,
}

// The fields of one length, which a response begins with.
#[derive(Clone, Copy)]
struct Head {
    capabilities: u32,
    max_packet: u32,
    collation: u8,
}

/// Reads a response (client/server protocol, "Protocol::HandshakeResponse41"). The faults are those of the first wrong
/// field: NoProtocol41 and then NoSecureConnection at the capabilities, which have to name PROTOCOL_41, and
/// SECURE_CONNECTION or PLUGIN_AUTH_LENENC_CLIENT_DATA; Short where a field runs past the end, an answer with its
/// length being one field. The last text may end with the payload, unless attributes follow it. Fillers may hold any
/// bytes, attributes aren't looked at, other capabilities mean nothing, and what follows is ignored.
#[tactic(auto, unfolding(crate::specs::Response::response_of))]
pub fn read_response(alloc: Global, payload: &[u8]) -> Result<Response, HandFault>
    ensures { Gives result (response_of payload.now) }
{
    let mut fields = Cursor::new(payload);
    let head = take_head(&mut fields)?;
    let capabilities = head.capabilities;
    let user = fields.take_text()?;
    let answer = fields.take_counted(answer_length(capabilities, fields.rest()))?;
    let named = has(capabilities, PLUGIN_AUTH);
    let followed = has(capabilities, CONNECT_ATTRS);
    let in_schema = has(capabilities, CONNECT_WITH_DB);
    let schema = fields.take_optional_text(in_schema, !(named || followed))?;
    let plugin = fields.take_optional_text(named, !followed)?;
    Ok(owned_response(alloc, head, user, answer, schema, plugin)?)
}

// The fields of one length.
#[tactic(auto, unfolding(crate::specs::Response::head_fields))]
fn take_head(fields: &mut Cursor<'_>) -> Result<Head, HandFault>
    ensures { Takes result fields.new (head_fields fields.old) }
{
    let capabilities = fields.take_u32()?;
    needed_of_response(capabilities)?;
    let max_packet = fields.take_u32()?;
    let collation = fields.take_u8()?;
    let _filler = fields.take_bytes(23)?;
    Ok(Head {
        capabilities,
        max_packet,
        collation,
    })
}

// A response with texts of its own.
fn owned_response(
    alloc: Global,
    head: Head,
    user: &[u8],
    answer: &[u8],
    schema: Option<&[u8]>,
    plugin: Option<&[u8]>,
) -> Result<Response, OutOfMemory>
    ensures { IfOk result (λ response. response ≡ record { capabilities = head.capabilities; max_packet = head.max_packet; collation = head.collation; user = user.now; answer = answer.now; schema = option_copied schema.entry; plugin = option_copied plugin.entry }) }
{
    Ok(Response {
        capabilities: head.capabilities,
        max_packet: head.max_packet,
        collation: head.collation,
        user: Bytes::from_slice(alloc, user)?,
        answer: Bytes::from_slice(alloc, answer)?,
        schema: owned(alloc, schema)?,
        plugin: owned(alloc, plugin)?,
    })
}

// The length of an answer that the bytes begin with.
fn answer_length(capabilities: u32, bytes: &[u8]) -> Field
    ensures { result ≡ answer_length capabilities bytes.now }
{
    let prefixed = has(capabilities, PLUGIN_AUTH_LENENC_CLIENT_DATA);
    if prefixed {
        return get_lenenc(bytes, 0);
    }
    match get_u8(bytes, 0) {
        Some(n) => Field::Value {
            n: n as u64,
            next: 1,
        },
        None => Field::Short,
    }
}

// A text of one's own.
fn owned(alloc: Global, text: Option<&[u8]>) -> Result<Option<Bytes>, OutOfMemory>
    ensures { IfOk result (λ own. own ≡ option_copied text.entry) }
{
    match text {
        Some(text) => Ok(Some(Bytes::from_slice(alloc, text)?)),
        None => Ok(None),
    }
}

/// Appends a response (client/server protocol, "Protocol::HandshakeResponse41"): fillers are zero; schema, login method
/// and attributes are there under their capabilities alone, empty where the response has none. OutOfMemory leaves `out`
/// as it was.
#[tactic(auto, unfolding(crate::specs::Response::response_fields))]
pub fn write_response(out: &mut Vec<u8>, response: &Response) -> Result<(), OutOfMemory>
    requires user { IsText response.now.user }
    requires schema { ForSome response.now.schema IsText }
    requires plugin { ForSome response.now.plugin IsText }
    requires answer { length response.now.answer ≤ 255 }
    ensures ok { OnOk result (out.new.items ≡ out.old.items ++ response_bytes response.now) }
    ensures err { OnErr result (out.new.items ≡ out.old.items) }
{
    let capabilities = response.capabilities;
    let offered = capabilities.to_le_bytes();
    let max_packet = response.max_packet.to_le_bytes();
    let user = text_field(response.user.as_slice());
    let answer = response.answer.as_slice();
    let length = length_bytes(*out.allocator(), capabilities, answer.len() as u8)?;
    let schema = under(CONNECT_WITH_DB, capabilities, text_of(&response.schema));
    let schema_end = under(CONNECT_WITH_DB, capabilities, &NUL);
    let plugin = under(PLUGIN_AUTH, capabilities, text_of(&response.plugin));
    let plugin_end = under(PLUGIN_AUTH, capabilities, &NUL);
    let no_attributes = under(CONNECT_ATTRS, capabilities, &[0]);
    put_fields(
        out,
        &[
            &offered,
            &max_packet,
            &[response.collation],
            &[0; 23],
            user,
            &NUL,
            &length,
            answer,
            schema,
            schema_end,
            plugin,
            plugin_end,
            no_attributes,
        ],
    )
}

// The length of an answer, as it is spelled.
fn length_bytes(alloc: Global, capabilities: u32, n: u8) -> Result<Vec<u8>, OutOfMemory>
    ensures { IfOk result (λ bytes. bytes.items ≡ length_bytes capabilities n) }
{
    let mut bytes = Vec::new(alloc);
    if has(capabilities, PLUGIN_AUTH_LENENC_CLIENT_DATA) {
        put_lenenc(&mut bytes, n as u64)?;
    } else {
        bytes.push(n)?;
    }
    Ok(bytes)
}

// A text, empty where there is none.
fn text_of(text: &Option<Bytes>) -> &[u8]
    requires { ForSome text.now IsText }
    ensures { result.now ≡ unwrap_or text.now [] }
{
    match text {
        Some(text) => text_field(text.as_slice()),
        None => &[],
    }
}
