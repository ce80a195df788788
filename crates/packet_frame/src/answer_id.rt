// The sequence id of an answer to bytes that are no whole message.
ghost use Rattle.std.specs.Prelude.{◌≡◌, ◌≤◌, ℕ, ◌++◌, length, SomeIff};
ghost use Rattle.mx_base.specs.Fields.{number_at};
ghost use Rattle.packet_frame.specs.Packets.{packet_length, packet_id, id_of_answer, id_from};
ghost use Rattle.packet_frame.specs.Joining.{as_read, IsJoined};

use crate::header::Header;
use crate::kept::Kept;
use crate::write::{LONGEST, following};
use mx_base::get_u8;

/// The id behind that of the last whole header of the first message in the bytes `kept` with `unfed` behind them,
/// 0 where no header is whole.
pub(crate) fn answer_id(kept: &Kept, unfed: &[u8]) -> u8
    requires { (limit : ℕ) × IsJoined limit kept.now }
    ensures { result ≡ id_of_answer (as_read kept.now ++ unfed.now) }
{
    if kept.packets() == 0 {
        return id_behind_headers(0, kept.rest(), unfed);
    }
    match kept.message() {
        Some(_) => kept.due(),
        None => id_behind_headers(kept.due(), kept.rest(), unfed),
    }
}

// The same, where the id is `last` until a header is whole.
fn id_behind_headers(last: u8, kept: &[u8], unfed: &[u8]) -> u8
    ensures { result ≡ id_from last (kept.now ++ unfed.now) }
{
    let Some(header) = header_across(kept, unfed) else {
        return last;
    };
    let id = following(header.id);
    if (header.length as usize) != LONGEST {
        return id;
    }
    let gone = 4 + LONGEST;
    if gone <= kept.len() {
        let (_, kept) = kept.split_at(gone);
        id_behind_headers(id, kept, unfed)
    } else {
        let more = (gone - kept.len()).min(unfed.len());
        let (_, unfed) = unfed.split_at(more);
        id_behind_headers(id, &[], unfed)
    }
}

// The header that the bytes `kept` and then `unfed` begin with, None where it isn't whole.
fn header_across(kept: &[u8], unfed: &[u8]) -> Option<Header>
    ensures { SomeIff result (4 ≤ length (kept.now ++ unfed.now)) (record { length = packet_length (kept.now ++ unfed.now); id = packet_id (kept.now ++ unfed.now) }) }
{
    let low = byte_across(kept, unfed, 0)?;
    let middle = byte_across(kept, unfed, 1)?;
    let high = byte_across(kept, unfed, 2)?;
    let id = byte_across(kept, unfed, 3)?;
    let length = low as u32 + 256 * (middle as u32 + 256 * high as u32);
    Some(Header { length, id })
}

// The byte at a place of the bytes `kept` and then `unfed`, None past the end.
fn byte_across(kept: &[u8], unfed: &[u8], at: usize) -> Option<u8>
    ensures { result ≡ number_at 1 at (kept.now ++ unfed.now) }
{
    if at < kept.len() {
        get_u8(kept, at)
    } else {
        get_u8(unfed, at - kept.len())
    }
}
