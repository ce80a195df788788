// Capabilities of a client and a server.
ghost use Rattle.std.specs.Prelude.{◌≡◌};
ghost use Rattle.handshake.specs.Capability.{has, needed_of_greeting, needed_of_response};

use crate::HandFault;

/// A schema stands in the response (client/server protocol, "Capabilities Flags", as all of these).
pub const CONNECT_WITH_DB: u32 = 0x0000_0008;
/// The protocol of MySQL 4.1 is spoken.
pub const PROTOCOL_41: u32 = 0x0000_0200;
/// The response holds the answer of mysql_native_password, with a length of one byte before it.
pub const SECURE_CONNECTION: u32 = 0x0000_8000;
/// A greeting and a response name a login method.
pub const PLUGIN_AUTH: u32 = 0x0008_0000;
/// Attributes of the connection stand at the end of a response.
pub const CONNECT_ATTRS: u32 = 0x0010_0000;
/// The answer in a response has a length-encoded length.
pub const PLUGIN_AUTH_LENENC_CLIENT_DATA: u32 = 0x0020_0000;

/// Whether the capability is there.
pub(crate) fn has(capabilities: u32, capability: u32) -> bool
    ensures { result ≡ has capability capabilities }
{
    capabilities & capability != 0
}

/// Whether a server that offers these capabilities can be spoken to.
pub(crate) fn needed_of_greeting(capabilities: u32) -> Result<(), HandFault>
    ensures { result ≡ needed_of_greeting capabilities }
{
    if !has(capabilities, PROTOCOL_41) {
        return Err(HandFault::NoProtocol41);
    }
    if !has(capabilities, SECURE_CONNECTION) {
        return Err(HandFault::NoSecureConnection);
    }
    Ok(())
}

/// Whether a client of these capabilities can be spoken to.
pub(crate) fn needed_of_response(capabilities: u32) -> Result<(), HandFault>
    ensures { result ≡ needed_of_response capabilities }
{
    if !has(capabilities, PROTOCOL_41) {
        return Err(HandFault::NoProtocol41);
    }
    let counted = has(capabilities, PLUGIN_AUTH_LENENC_CLIENT_DATA);
    if !counted && !has(capabilities, SECURE_CONNECTION) {
        return Err(HandFault::NoSecureConnection);
    }
    Ok(())
}
