// Messages of one packet.
use mx_base::{Bytes, OutOfMemory, get_u24};
use packet_frame::write_message;
use server_rule::ReplyList;
use std::alloc::Global;

fn packet_size(bytes: &[u8]) -> usize {
    (get_u24(bytes, 0).unwrap_or(0) as usize).saturating_add(4)
}

/// The packet with so many before it, where it is whole.
pub fn packet_at(bytes: &[u8], place: u64) -> Option<&[u8]> {
    let mut rest = bytes;
    for _ in 0..place {
        rest = rest.get(packet_size(rest)..)?;
    }
    rest.get(..packet_size(rest))
}

/// The payload of a packet, behind its first byte.
pub fn text_in(alloc: Global, packet: &[u8]) -> Result<Bytes, OutOfMemory> {
    Bytes::from_slice(alloc, packet.get(5..).unwrap_or(&[]))
}

/// A reply as a client is written it.
pub fn spelled(alloc: Global, reply: &ReplyList) -> Result<Vec<u8>, OutOfMemory> {
    let mut packets = Vec::new(alloc);
    let mut id = 1;
    for payload in reply.as_slice() {
        id = write_message(&mut packets, id, payload.as_slice())?;
    }
    Ok(packets)
}
