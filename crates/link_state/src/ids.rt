// The sequence id behind the messages that bytes are.
ghost use Rattle.std.specs.Prelude.{◌≡◌, ◌+◌, ◌^◌, ◌<◌, ◌≤◌, length, SomeIff};
ghost use Rattle.packet_frame.specs.Packets.{first_packet, message_within, next_id, packet_id, packet_length};
ghost use Rattle.link_state.specs.Ids.{behind_found, body_in, longest_message};

use mx_base::{get_u8, get_u24};

/// The longest body of a packet.
const LONGEST_BODY: usize = 16_777_215;

fn following(id: u8) -> u8
    ensures { result ≡ next_id id }
{
    ((id as u16 + 1) % 256) as u8
}

// The length and the sequence id in the header that the bytes begin with, None where it isn't whole.
fn header_of(bytes: &[u8]) -> Option<(u32, u8)>
    ensures { SomeIff result (4 ≤ length bytes.now) (packet_length bytes.now, packet_id bytes.now) }
{
    let id = get_u8(bytes, 3)?;
    let length = get_u24(bytes, 0)?;
    Some((length, id))
}

// The length of the body of the packet that the bytes begin with, where that is whole and has this id; the packets of its message before it
// announced so many bytes.
#[tactic(auto, using(crate::proofs::Walking::no_header, crate::proofs::Walking::other_id, crate::proofs::Walking::cut_short, crate::proofs::Walking::body_there))]
fn body_of(announced: u64, id: u8, bytes: &[u8]) -> Option<usize>
    requires { announced + length bytes.now < 2 ^ 64 }
    ensures { result ≡ body_in (first_packet longest_message announced id bytes.now) }
{
    let (length, found) = header_of(bytes)?;
    if found != id {
        return None;
    }
    let body = length as usize;
    if body > bytes.len() - 4 {
        return None;
    }
    Some(body)
}

// The id of the last packet of the last whole message, `last` where none is; the bytes go on with a message whose packets announced so many
// bytes, and whose next packet has this id.
#[tactic(auto, using(crate::proofs::Walking::within_there, crate::proofs::Walking::not_there, crate::proofs::Walking::goes_on, crate::proofs::Walking::ends))]
fn last_of(last: u8, announced: u64, id: u8, bytes: &[u8]) -> u8
    requires { announced + length bytes.now < 2 ^ 64 }
    ensures { result ≡ behind_found (message_within (length bytes.now) longest_message announced id bytes.now) last }
{
    let Some(body) = body_of(announced, id, bytes) else {
        return last;
    };
    let (_, behind) = bytes.split_at(4 + body);
    if body == LONGEST_BODY {
        last_of(last, announced + LONGEST_BODY as u64, following(id), behind)
    } else {
        last_of(id, 0, 0, behind)
    }
}

/// The sequence id behind the last packet of the last whole message, 1 where none is whole.
#[tactic(auto, using(crate::proofs::Walking::first_last))]
pub(crate) fn id_behind(bytes: &[u8]) -> u8
    ensures { result ≡ Rattle.link_state.specs.Ids.id_behind bytes.now }
{
    let _length = bytes.len();
    following(last_of(0, 0, 0, bytes))
}
