// An EOF.
ghost use Rattle.std.specs.Prelude.{◌≡◌, ◌++◌, OnOk, OnErr, IfOk};
ghost use Rattle.packet_frame.specs.Packets.{spelling, id_behind};
ghost use Rattle.reply_text.specs.Replies.{eof_payload};

use mx_base::OutOfMemory;
use packet_frame::write_message;

/// Appends an EOF (client/server protocol, "EOF_Packet") as one message, whose first packet has the sequence id
/// `first`: no warnings, and these status flags. Answers the id behind the last packet's. OutOfMemory leaves `out`
/// as it was.
pub fn write_eof(out: &mut Vec<u8>, first: u8, status: u16) -> Result<u8, OutOfMemory>
    ensures bytes { OnOk result (out.new.items ≡ out.old.items ++ spelling first (eof_payload status)) }
    ensures behind { IfOk result (λ id. id ≡ id_behind first (eof_payload status)) }
    ensures err { OnErr result (out.new.items ≡ out.old.items) }
{
    let low = (status % 256) as u8;
    let high = (status / 256) as u8;
    write_message(out, first, &[0xFE, 0, 0, low, high])
}
