// The header of a packet.
ghost use Rattle.std.specs.Prelude.{◌≡◌, ◌≤◌, ◌<◌, ◌^◌, length, SomeIff};
ghost use Rattle.mx_base.specs.Fields.{AreBytes};
ghost use Rattle.packet_frame.specs.Packets.{packet_length, packet_id, first_packet, lacking};
ghost use Rattle.packet_frame.specs.Joining.{body_told};

use crate::fault::FrameFault;
use crate::write::LONGEST;
use mx_base::{get_u8, get_u24};

/// The length of a packet's body, and its sequence id.
#[derive(Clone, Copy)]
pub(crate) struct Header {
    pub length: u32,
    pub id: u8,
}

/// The header that the bytes begin with, None where it isn't whole.
pub(crate) fn header_of(bytes: &[u8]) -> Option<Header>
    ensures { SomeIff result (4 ≤ length bytes.now) (record { length = packet_length bytes.now; id = packet_id bytes.now }) }
{
    let id = get_u8(bytes, 3)?;
    let length = get_u24(bytes, 0)?;
    Some(Header { length, id })
}

/// The length of the body of the packet that the bytes begin with, None where it isn't whole. Its sequence id has to be
/// `id`, and the packets of its message before it announced so many bytes.
pub(crate) fn packet_of(
    limit: u64,
    announced: u64,
    id: u8,
    bytes: &[u8],
) -> Result<Option<usize>, FrameFault>
    requires { announced < 2 ^ 63 }
    ensures told { result ≡ body_told (first_packet limit announced id bytes.now) }
    ensures bytes { AreBytes bytes.now }
{
    let Some(header) = header_of(bytes) else {
        return Ok(None);
    };
    if header.id != id {
        return Err(FrameFault::OutOfOrder {
            expected: id,
            found: header.id,
        });
    }
    let length = announced + header.length as u64;
    if length > limit {
        return Err(FrameFault::TooLarge { length });
    }
    let body = header.length as usize;
    if body > bytes.len() - 4 {
        return Ok(None);
    }
    Ok(Some(body))
}

/// How many bytes the last packet of the first message in the bytes still lacks, 0 while its header isn't whole.
pub(crate) fn lacking(bytes: &[u8]) -> u64
    ensures { result ≡ Rattle.packet_frame.specs.Packets.lacking bytes.now }
{
    let Some(header) = header_of(bytes) else {
        return 0;
    };
    let body = header.length as usize;
    if body == LONGEST && 4 + LONGEST <= bytes.len() {
        let (_, behind) = bytes.split_at(4 + LONGEST);
        return lacking(behind);
    }
    (4 + body).saturating_sub(bytes.len()) as u64
}
