// A server's greeting.
ghost use Rattle.std.specs.Prelude.{◌≡◌, ◌++◌, length, take, Ok, Err, IfOk, MatchResult, OnOk, OnErr};
ghost use Rattle.handshake.specs.Reading.{Gives, Takes};
ghost use Rattle.handshake.specs.Spelling.{IsText};
ghost use Rattle.handshake.specs.Greeting.{protocol_field, offer_fields, back_field, greeting_of, plugin_of_greeting, greeting_bytes};

use crate::HandFault;
use crate::capability::{PLUGIN_AUTH, has, needed_of_greeting};
use crate::cursor::Cursor;
use crate::put::{NUL, put_fields, text_field, under};
use mx_base::{Bytes, OutOfMemory};
use std::alloc::Global;

/// The first payload of a connection, from a server to a client (client/server protocol, "Protocol::HandshakeV10").
#[derive(Drop)]
pub struct Greeting {
    /// The server's version, as text.
    pub version: Bytes,
    /// The server's number of the connection.
    pub connection: u32,
    /// What the client's answer is computed from: the 8 bytes of the first part and 12 bytes of the second.
    pub salt: [u8; 20],
    /// The server's capabilities.
    pub capabilities: u32,
    /// The server's default collation, by its number.
    pub collation: u8,
    /// The status flags.
    pub status: u16,
    /// The server's login method, which stands in the payload under PLUGIN_AUTH alone.
    pub plugin: Bytes,
}

// What a server offers, between the parts of its scramble.
#[derive(Clone, Copy)]
struct Offer {
    capabilities: u32,
    collation: u8,
    status: u16,
}

/// The protocol version of all servers since MySQL 3.21.
const PROTOCOL_VERSION: u8 = 10;

/// The length of a scramble with the NUL behind it.
const SCRAMBLE_LENGTH: u8 = 21;

/// Reads a greeting (client/server protocol, "Protocol::HandshakeV10"). The faults are those of the first wrong field:
/// Short where it runs past the end, NotVersion10 at the first byte, and NoProtocol41 and then NoSecureConnection at
/// the low two bytes of the capabilities, which have to offer PROTOCOL_41 and SECURE_CONNECTION. The name of the login
/// method may end with the payload. Fillers may hold any bytes, and what follows is ignored.
#[tactic(auto, unfolding(crate::specs::Greeting::greeting_of))]
pub fn read_greeting(alloc: Global, payload: &[u8]) -> Result<Greeting, HandFault>
    ensures { Gives result (greeting_of payload.now) }
{
    let mut fields = Cursor::new(payload);
    take_protocol(&mut fields)?;
    let version = fields.take_text()?;
    let connection = fields.take_u32()?;
    let front = fields.take_bytes(8)?;
    let _filler = fields.take_bytes(1)?;
    let offer = take_offer(&mut fields)?;
    let back = take_back(&mut fields)?;
    let plugin = plugin_of_greeting(offer.capabilities, &fields);
    Ok(Greeting {
        version: Bytes::from_slice(alloc, version)?,
        connection,
        salt: joined(front, back),
        capabilities: offer.capabilities,
        collation: offer.collation,
        status: offer.status,
        plugin: Bytes::from_slice(alloc, plugin)?,
    })
}

// The protocol version, which is 10.
#[tactic(auto, unfolding(crate::specs::Greeting::protocol_field))]
fn take_protocol(fields: &mut Cursor<'_>) -> Result<(), HandFault>
    ensures { Takes result fields.new (protocol_field fields.old) }
{
    let protocol = fields.take_u8()?;
    if protocol != PROTOCOL_VERSION {
        return Err(HandFault::NotVersion10 { found: protocol });
    }
    Ok(())
}

// The capabilities in two halves, with collation and status flags between them.
#[tactic(auto, unfolding(crate::specs::Greeting::offer_fields))]
fn take_offer(fields: &mut Cursor<'_>) -> Result<Offer, HandFault>
    ensures { Takes result fields.new (offer_fields fields.old) }
{
    let low = fields.take_u16()?;
    needed_of_greeting(low as u32)?;
    let collation = fields.take_u8()?;
    let status = fields.take_u16()?;
    let high = fields.take_u16()?;
    Ok(Offer {
        capabilities: low as u32 + 65_536 * high as u32,
        collation,
        status,
    })
}

// The second part of the scramble, behind the scramble's length and the filler.
#[tactic(auto, unfolding(crate::specs::Greeting::back_field))]
fn take_back<'a>(fields: &mut Cursor<'a>) -> Result<&'a [u8], HandFault>
    ensures field { MatchResult result (λ back. back_field fields.old ≡ Ok (back.now, fields.new)) (λ fault. back_field fields.old ≡ Err fault) }
    ensures long { IfOk result (λ back. length back.now ≡ 13) }
{
    let _scramble_length = fields.take_bytes(1)?;
    let _reserved = fields.take_bytes(10)?;
    fields.take_bytes(13)
}

// The login method, where one is named.
fn plugin_of_greeting<'a>(capabilities: u32, fields: &Cursor<'a>) -> &'a [u8]
    ensures { result.now ≡ plugin_of_greeting capabilities fields.now }
{
    if has(capabilities, PLUGIN_AUTH) {
        fields.last_text()
    } else {
        &[]
    }
}

// The salt out of its two parts, behind the second of which a NUL stands.
fn joined(front: &[u8], back: &[u8]) -> [u8; 20]
    requires front { length front.now ≡ 8 }
    requires back { length back.now ≡ 13 }
    ensures { result ≡ front.now ++ take 12 back.now }
{
    let mut salt = [0; 20];
    salt[..8].copy_from_slice(front);
    salt[8..].copy_from_slice(&back[..12]);
    salt
}

/// Appends a greeting (client/server protocol, "Protocol::HandshakeV10"): the length of the scramble is 21, fillers are
/// zero, and the login method is there under PLUGIN_AUTH alone. OutOfMemory leaves `out` as it was.
#[tactic(auto, unfolding(crate::specs::Greeting::greeting_fields))]
pub fn write_greeting(out: &mut Vec<u8>, greeting: &Greeting) -> Result<(), OutOfMemory>
    requires version { IsText greeting.now.version }
    requires plugin { IsText greeting.now.plugin }
    ensures ok { OnOk result (out.new.items ≡ out.old.items ++ greeting_bytes greeting.now) }
    ensures err { OnErr result (out.new.items ≡ out.old.items) }
{
    let capabilities = greeting.capabilities;
    let version = text_field(greeting.version.as_slice());
    let connection = greeting.connection.to_le_bytes();
    let (front, back) = greeting.salt.split_at(8);
    let offered = capabilities.to_le_bytes();
    let (low, high) = offered.split_at(2);
    let status = greeting.status.to_le_bytes();
    let plugin = under(
        PLUGIN_AUTH,
        capabilities,
        text_field(greeting.plugin.as_slice()),
    );
    let plugin_end = under(PLUGIN_AUTH, capabilities, &NUL);
    put_fields(
        out,
        &[
            &[PROTOCOL_VERSION],
            version,
            &NUL,
            &connection,
            front,
            &[0],
            low,
            &[greeting.collation],
            &status,
            high,
            &[SCRAMBLE_LENGTH],
            &[0; 10],
            back,
            &NUL,
            plugin,
            plugin_end,
        ],
    )
}
