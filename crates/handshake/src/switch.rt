// A server's request to switch the login method.
ghost use Rattle.std.specs.Prelude.{◌≡◌, ◌<◌, ◌++◌, length, slice_index, OnOk, OnErr};
ghost use Rattle.handshake.specs.Reading.{Gives};
ghost use Rattle.handshake.specs.Switch.{switch_of, switch_bytes, native_password};

use crate::HandFault;
use crate::cursor::Cursor;
use crate::put::{NUL, put_fields};
use mx_base::{Bytes, OutOfMemory};
use std::alloc::Global;

/// A server's request to log in by another method (client/server protocol, "Protocol::AuthSwitchRequest").
#[derive(Drop)]
pub struct Switch {
    /// The login method.
    pub plugin: Bytes,
    /// What the client's answer is computed from.
    pub salt: [u8; 20],
}

/// Reads the payload of a request to switch, whose first byte is 0xFE (client/server protocol,
/// "Protocol::AuthSwitchRequest"): login method, 20 bytes of the scramble, and a NUL. The one fault is Short, at the
/// first field that runs past the end. What follows is ignored.
#[tactic(auto, unfolding(crate::specs::Switch::switch_of))]
pub fn read_switch(alloc: Global, payload: &[u8]) -> Result<Switch, HandFault>
    requires { 0 < length payload.now → slice_index payload.now 0 ≡ 254 }
    ensures { Gives result (switch_of payload.now) }
{
    let mut fields = Cursor::new(payload);
    let _request = fields.take_bytes(1)?;
    let plugin = fields.take_text()?;
    let scramble = fields.take_bytes(20)?;
    let _end = fields.take_bytes(1)?;
    let mut salt = [0; 20];
    salt.copy_from_slice(scramble);
    Ok(Switch {
        plugin: Bytes::from_slice(alloc, plugin)?,
        salt,
    })
}

/// Appends the payload of a request to log in by mysql_native_password with this salt (client/server protocol,
/// "Protocol::AuthSwitchRequest"). OutOfMemory leaves `out` as it was.
#[tactic(auto, unfolding(crate::specs::Switch::switch_fields))]
pub fn write_switch(out: &mut Vec<u8>, salt: &[u8; 20]) -> Result<(), OutOfMemory>
    ensures ok { OnOk result (out.new.items ≡ out.old.items ++ switch_bytes (record { plugin = native_password; salt = salt.now })) }
    ensures err { OnErr result (out.new.items ≡ out.old.items) }
{
    put_fields(out, &[&[0xFE], b"mysql_native_password", &NUL, salt, &NUL])
}
