// An OK reply.
ghost use Rattle.std.specs.Prelude.{◌≡◌, ◌++◌, OnOk, OnErr, IfOk};
ghost use Rattle.packet_frame.specs.Packets.{spelling, id_behind};
ghost use Rattle.reply_text.specs.Replies.{ok_payload};

use mx_base::OutOfMemory;
use packet_frame::write_message;
use std::alloc::Global;

/// Appends an OK (client/server protocol, "OK_Packet") as one message, whose first packet has the sequence id `first`:
/// no affected rows, no last insert id, these status flags, no warnings, and the info text. Answers the id behind the
/// last packet's. OutOfMemory leaves `out` as it was.
pub fn write_ok(out: &mut Vec<u8>, first: u8, status: u16, info: &[u8]) -> Result<u8, OutOfMemory>
    ensures bytes { OnOk result (out.new.items ≡ out.old.items ++ spelling first (ok_payload status info.now)) }
    ensures behind { IfOk result (λ id. id ≡ id_behind first (ok_payload status info.now)) }
    ensures err { OnErr result (out.new.items ≡ out.old.items) }
{
    let payload = ok_payload(*out.allocator(), status, info)?;
    write_message(out, first, &payload)
}

// The payload of an OK.
fn ok_payload(alloc: Global, status: u16, info: &[u8]) -> Result<Vec<u8>, OutOfMemory>
    ensures { IfOk result (λ payload. payload.items ≡ ok_payload status info.now) }
{
    let low = (status % 256) as u8;
    let high = (status / 256) as u8;
    let mut payload = Vec::new(alloc);
    payload.extend_from_slice(&[0x00, 0, 0, low, high, 0, 0])?;
    payload.extend_from_slice(info)?;
    Ok(payload)
}
