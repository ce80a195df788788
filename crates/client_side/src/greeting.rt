// The router's greeting.
ghost use Rattle.std.specs.Prelude.{◌≡◌, ◌≤◌, length, IfOk};
ghost use Rattle.packet_frame.specs.Packets.{spelling};
ghost use Rattle.handshake.specs.Spelling.{IsText};
ghost use Rattle.handshake.specs.Greeting.{greeting_bytes};
ghost use Rattle.client_side.specs.Login.{own_greeting, switch_said};

use handshake::{Greeting, write_greeting, write_switch};
use mx_base::{Bytes, ClientNo, OutOfMemory};
use packet_frame::write_message;
use std::alloc::Global;

/// What the router speaks: LONG_PASSWORD, FOUND_ROWS, LONG_FLAG, CONNECT_WITH_DB, PROTOCOL_41, TRANSACTIONS,
/// SECURE_CONNECTION, MULTI_RESULTS, PS_MULTI_RESULTS and PLUGIN_AUTH (client/server protocol, "Capabilities Flags").
const CAPABILITIES: u32 = 0x000E_A20F;

/// utf8mb4_general_ci (MySQL Reference Manual, "INFORMATION_SCHEMA COLLATIONS").
const COLLATION: u8 = 45;

/// SERVER_STATUS_AUTOCOMMIT (client/server protocol, "SERVER_STATUS_flags_enum").
const AUTOCOMMIT: u16 = 0x0002;

/// The packet of the greeting to a client, with the sequence id 0. The connection's number is the client's,
/// modulo 2^32.
pub fn greeting_packet(
    alloc: Global,
    number: ClientNo,
    salt: [u8; 20],
    version: &[u8],
) -> Result<Vec<u8>, OutOfMemory>
    requires text { IsText version.now }
    requires short { length version.now ≤ 255 }
    ensures { IfOk result (λ packet. packet.items ≡ spelling 0 (greeting_bytes (own_greeting number.0 salt version.now))) }
{
    let greeting = Greeting {
        version: Bytes::from_slice(alloc, version)?,
        connection: (number.0 % 4_294_967_296) as u32,
        salt,
        capabilities: CAPABILITIES,
        collation: COLLATION,
        status: AUTOCOMMIT,
        plugin: Bytes::from_slice(alloc, b"mysql_native_password")?,
    };
    let mut payload = Vec::new(alloc);
    write_greeting(&mut payload, &greeting)?;
    packet(alloc, 0, &payload)
}

/// The packet of the request to switch, with the sequence id 2 (client/server protocol, "Protocol::AuthSwitchRequest").
pub fn switch_packet(alloc: Global, salt: &[u8; 20]) -> Result<Vec<u8>, OutOfMemory>
    ensures { IfOk result (λ packet. packet.items ≡ switch_said salt.now) }
{
    let mut payload = Vec::new(alloc);
    write_switch(&mut payload, salt)?;
    packet(alloc, 2, &payload)
}

// The packets of a payload, the first with the sequence id `first`.
fn packet(alloc: Global, first: u8, payload: &[u8]) -> Result<Vec<u8>, OutOfMemory>
    ensures { IfOk result (λ packet. packet.items ≡ spelling first payload.now) }
{
    let mut packet = Vec::new(alloc);
    write_message(&mut packet, first, payload)?;
    Ok(packet)
}
