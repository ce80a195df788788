// An ERR reply.
ghost use Rattle.std.specs.Prelude.{◌≡◌, ◌++◌, OnOk, OnErr, IfOk};
ghost use Rattle.packet_frame.specs.Packets.{spelling, id_behind};
ghost use Rattle.reply_text.specs.Replies.{err_payload};

use mx_base::OutOfMemory;
use packet_frame::write_message;
use std::alloc::Global;

/// Appends an ERR (client/server protocol, "ERR_Packet") as one message, whose first packet has the sequence id
/// `first`: its error code, its SQL state of five characters and its message text. Answers the id behind the last
/// packet's. OutOfMemory leaves `out` as it was.
pub fn write_err(
    out: &mut Vec<u8>,
    first: u8,
    code: u16,
    state: &[u8; 5],
    text: &[u8],
) -> Result<u8, OutOfMemory>
    ensures bytes { OnOk result (out.new.items ≡ out.old.items ++ spelling first (err_payload code state.now text.now)) }
    ensures behind { IfOk result (λ id. id ≡ id_behind first (err_payload code state.now text.now)) }
    ensures err { OnErr result (out.new.items ≡ out.old.items) }
{
    let payload = err_payload(*out.allocator(), code, state, text)?;
    write_message(out, first, &payload)
}

// The payload of an ERR.
fn err_payload(
    alloc: Global,
    code: u16,
    state: &[u8; 5],
    text: &[u8],
) -> Result<Vec<u8>, OutOfMemory>
    ensures { IfOk result (λ payload. payload.items ≡ err_payload code state.now text.now) }
{
    let low = (code % 256) as u8;
    let high = (code / 256) as u8;
    let mut payload = Vec::new(alloc);
    payload.extend_from_slice(&[0xFF, low, high, b'#'])?;
    payload.extend_from_slice(state)?;
    payload.extend_from_slice(text)?;
    Ok(payload)
}
