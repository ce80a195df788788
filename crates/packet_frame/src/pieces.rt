// The messages of bytes that come in pieces.
ghost use Rattle.std.specs.Prelude.{◌≡◌, [], IfOk, OnOk, map};
ghost use Rattle.packet_frame.specs.Packets.{Split, split};
ghost use Rattle.packet_frame.specs.Pieces.{joined, payload_of, pending, IsTaken};

use crate::fault::FrameFault;
use crate::framer::Framer;
use mx_base::{Bytes, OutOfMemory};
use std::alloc::Global;

/// The payloads of messages in order, and the fault that stands behind them.
#[derive(Drop)]
pub struct Payloads {
    pub payloads: Vec<Bytes>,
    pub fault: Option<FrameFault>,
}

/// The payloads of the messages of at most `limit` bytes, each of which begins with the sequence id `first`, in
/// bytes that come in these pieces (client/server protocol, "MySQL Packets"). They are those of the joined bytes,
/// wherever the pieces were cut. OutOfMemory where memory is refused.
pub fn payloads_of(
    alloc: Global,
    limit: u64,
    first: u8,
    pieces: &[Bytes],
) -> Result<Payloads, OutOfMemory>
    ensures payloads { IfOk result (λ found. found.payloads.items ≡ map payload_of (split limit first (joined pieces.now)).messages) }
    ensures fault { IfOk result (λ found. found.fault ≡ (split limit first (joined pieces.now)).fault) }
{
    let mut framer = Framer::new(alloc, limit);
    let mut payloads = Vec::new(alloc);
    let mut fault = None;
    for piece in pieces {
        framer.feed(piece.as_slice())?;
        fault = take_messages(alloc, &mut framer, first, &mut payloads)?;
    }
    Ok(Payloads { payloads, fault })
}

// Takes each message that is whole, and answers the fault behind them.
fn take_messages(
    alloc: Global,
    framer: &mut Framer,
    first: u8,
    payloads: &mut Vec<Bytes>,
) -> Result<Option<FrameFault>, OutOfMemory>
    ensures same { framer.new.limit ≡ framer.old.limit }
    ensures part { OnOk result ((all : Split) → IsTaken first all payloads.old.items framer.old → IsTaken first all payloads.new.items framer.new) }
    ensures dry { OnOk result ((pending first framer.new).messages ≡ []) }
    ensures faulty { IfOk result (λ fault. (pending first framer.new).fault ≡ fault) }
{
    loop {
        match framer.next(first) {
            Ok(Some(_)) => {
                payloads.push(Bytes::from_slice(alloc, framer.payload())?)?;
                framer.done();
            }
            Ok(None) => return Ok(None),
            Err(fault) => return Ok(Some(fault)),
        }
    }
}
