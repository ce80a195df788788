// The router's payloads in a login, and what those of a server say.
ghost use Rattle.std.specs.Prelude.{◌≡◌, ◌≤◌, bytes_eq, length, IfOk};
ghost use Rattle.handshake.specs.Spelling.{IsText};
ghost use Rattle.handshake.specs.Switch.{native_password};
ghost use Rattle.native_auth.specs.Native.{answer_of, bytes_of};
ghost use Rattle.server_side.specs.Login.{own_response, answer_said, response_said, wanted, asks_switch, denied, lacks_found_rows};

use crate::account::Account;
use handshake::{Greeting, Response, write_response};
use mx_base::{Bytes, OutOfMemory, get_u8, get_u16};
use native_auth::{Answer, answer};
use packet_frame::write_message;
use std::alloc::Global;

/// What the router speaks to servers, where they offer it: LONG_PASSWORD, LONG_FLAG, PROTOCOL_41, TRANSACTIONS,
/// SECURE_CONNECTION, MULTI_RESULTS, PS_MULTI_RESULTS and PLUGIN_AUTH (client/server protocol, "Capabilities Flags").
const CAPABILITIES: u32 = 0x000E_A205;

/// The same, and FOUND_ROWS.
const WITH_FOUND_ROWS: u32 = 0x000E_A207;

/// FOUND_ROWS: an UPDATE tells of the rows that it found.
const FOUND_ROWS: u32 = 0x0000_0002;

/// The longest packet that a server is told of, in bytes.
const MOST_PACKET: u32 = 16_777_216;

/// utf8mb4_general_ci (MySQL Reference Manual, "INFORMATION_SCHEMA COLLATIONS").
const COLLATION: u8 = 45;

// What is asked for of what the server offers.
fn wanted(found_rows: bool) -> u32
    ensures { result ≡ wanted found_rows }
{
    if found_rows {
        WITH_FOUND_ROWS
    } else {
        CAPABILITIES
    }
}

/// Whether FOUND_ROWS is wanted and isn't offered.
pub fn lacks_found_rows(found_rows: bool, offered: u32) -> bool
    ensures { result ≡ lacks_found_rows found_rows offered }
{
    found_rows && offered & FOUND_ROWS == 0
}

// The answer to a salt, as a list of bytes.
fn answer_bytes(alloc: Global, password: &[u8], salt: &[u8; 20]) -> Result<Bytes, OutOfMemory>
    ensures answers { IfOk result (λ bytes. bytes ≡ bytes_of (answer_of password.now salt.now)) }
    ensures short { IfOk result (λ bytes. length bytes ≤ 20) }
{
    match answer(password, salt) {
        Answer::Empty => Ok(Bytes::new(alloc)),
        Answer::Bytes(bytes) => Bytes::from_slice(alloc, &bytes),
    }
}

// What the router answers to a greeting. It names no schema.
fn own_response(
    alloc: Global,
    account: &Account,
    greeting: &Greeting,
) -> Result<Response, OutOfMemory>
    ensures is { IfOk result (λ response. response ≡ own_response account.now greeting.now) }
    ensures short { IfOk result (λ response. length response.answer ≤ 20) }
    ensures text { IfOk result (λ response. IsText response.user) }
{
    Ok(Response {
        capabilities: wanted(account.found_rows()) & greeting.capabilities,
        max_packet: MOST_PACKET,
        collation: COLLATION,
        user: Bytes::from_slice(alloc, account.user())?,
        answer: answer_bytes(alloc, account.password(), &greeting.salt)?,
        schema: None,
        plugin: Some(Bytes::from_slice(alloc, b"mysql_native_password")?),
    })
}

/// The packet of the response to a greeting, with the sequence id 1 (client/server protocol,
/// "Protocol::HandshakeResponse41").
#[tactic(auto, unfolding(crate::specs::Login::response_said))]
pub fn response_packet(
    alloc: Global,
    account: &Account,
    greeting: &Greeting,
) -> Result<Vec<u8>, OutOfMemory>
    ensures { IfOk result (λ packet. packet.items ≡ response_said account.now greeting.now) }
{
    let response = own_response(alloc, account, greeting)?;
    let mut payload = Vec::new(alloc);
    write_response(&mut payload, &response)?;
    let mut packet = Vec::new(alloc);
    write_message(&mut packet, 1, &payload)?;
    Ok(packet)
}

/// The packet of the bare answer to a request to switch, with the sequence id 3 (client/server protocol,
/// "Protocol::AuthSwitchResponse").
#[tactic(auto, unfolding(crate::specs::Login::answer_said))]
pub fn answer_packet(
    alloc: Global,
    account: &Account,
    salt: &[u8; 20],
) -> Result<Vec<u8>, OutOfMemory>
    ensures { IfOk result (λ packet. packet.items ≡ answer_said account.now salt.now) }
{
    let payload = answer_bytes(alloc, account.password(), salt)?;
    let mut packet = Vec::new(alloc);
    write_message(&mut packet, 3, payload.as_slice())?;
    Ok(packet)
}

/// The code of an ERR, with or without an SQL state; None where the payload doesn't begin as one.
pub fn denied(payload: &[u8]) -> Option<u16>
    ensures { result ≡ denied payload.now }
{
    if get_u8(payload, 0)? != 0xFF {
        return None;
    }
    match get_u16(payload, 1) {
        Some(code) => Some(code),
        None => Some(0),
    }
}

/// Whether a payload begins as a request to switch the login method.
pub fn asks_switch(payload: &[u8]) -> bool
    ensures { result ≡ asks_switch payload.now }
{
    payload.first() == Some(&0xFE)
}

/// Whether a login method is mysql_native_password (client/server protocol, "Native Authentication").
pub fn is_native(plugin: &[u8]) -> bool
    ensures { result ≡ bytes_eq plugin.now native_password }
{
    plugin == b"mysql_native_password".as_slice()
}
