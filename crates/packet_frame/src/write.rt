// Messages spelled as packets.
ghost use Rattle.std.specs.Prelude.{◌≡◌, ◌≤◌, ◌++◌, length, OnOk, OnErr, IfOk};
ghost use Rattle.packet_frame.specs.Packets.{longest, packet, spelling, id_behind, next_id};
ghost use Rattle.packet_frame.specs.Writing.{Begins};

use mx_base::OutOfMemory;

/// The length of the longest body of a packet.
pub(crate) const LONGEST: usize = 16_777_215;

/// The sequence id that follows.
pub(crate) fn following(id: u8) -> u8
    ensures { result ≡ next_id id }
{
    id.wrapping_add(1)
}

/// Appends a payload as packets, the first with the sequence id `first` (client/server protocol, "MySQL
/// Packets"): each of 16,777,215 bytes but the last, which is shorter and may be empty. Answers the id behind the
/// last packet's. OutOfMemory leaves `out` as it was.
pub fn write_message(out: &mut Vec<u8>, first: u8, payload: &[u8]) -> Result<u8, OutOfMemory>
    ensures bytes { OnOk result (out.new.items ≡ out.old.items ++ spelling first payload.now) }
    ensures behind { IfOk result (λ id. id ≡ id_behind first payload.now) }
    ensures err { OnErr result (out.new.items ≡ out.old.items) }
{
    let before = out.len();
    match write_packets(out, first, payload) {
        Ok(id) => Ok(id),
        Err(refused) => {
            out.truncate(before);
            Err(refused)
        }
    }
}

// Appends the packets, or some of their bytes where memory is refused.
fn write_packets(out: &mut Vec<u8>, first: u8, payload: &[u8]) -> Result<u8, OutOfMemory>
    ensures bytes { OnOk result (out.new.items ≡ out.old.items ++ spelling first payload.now) }
    ensures behind { IfOk result (λ id. id ≡ id_behind first payload.now) }
    ensures err { Begins out.old.items out.new.items }
{
    let mut id = first;
    let mut rest = payload;
    while rest.len() >= LONGEST {
        let (body, more) = rest.split_at(LONGEST);
        write_packet(out, id, body)?;
        id = following(id);
        rest = more;
    }
    write_packet(out, id, rest)?;
    Ok(following(id))
}

// Appends one packet, or some of its bytes where memory is refused.
fn write_packet(out: &mut Vec<u8>, id: u8, body: &[u8]) -> Result<(), OutOfMemory>
    requires { length body.now ≤ longest }
    ensures bytes { OnOk result (out.new.items ≡ out.old.items ++ packet id body.now) }
    ensures err { Begins out.old.items out.new.items }
{
    let length = body.len();
    let low = (length % 256) as u8;
    let middle = (length / 256 % 256) as u8;
    let high = (length / 65_536) as u8;
    out.extend_from_slice(&[low, middle, high, id])?;
    out.extend_from_slice(body)?;
    Ok(())
}
