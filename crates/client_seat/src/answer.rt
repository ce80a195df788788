// What a client is answered.
ghost use Rattle.std.specs.Prelude.{◌≡◌, IfOk};
ghost use Rattle.packet_frame.specs.Packets.{spellings};

use crate::place::move_place;
use crate::seat::Seat;
use mx_base::{Bytes, OutOfMemory};
use packet_frame::write_message;
use pin_classifier::Class;
use std::alloc::Global;
use stmt_map::{AddFault, Prepared};

impl Seat {
    ghost use Rattle.std.specs.Prelude.{◌≡◌, OnOk, IfOk, Some};
    ghost use Rattle.packet_frame.specs.Packets.{spellings};
    ghost use Rattle.stmt_map.specs.Client.{Changes, fresh, next_number};
    ghost use Rattle.client_seat.specs.Answers.{answered, grown, moved, replied};

    /// The last message that was taken up is answered by these payloads, in packets whose sequence ids go on from the
    /// message's; what came of a reply is dropped.
    pub fn answer(&mut self, alloc: Global, payloads: &[Bytes]) -> Result<(), OutOfMemory>
        ensures { OnOk result (self.new ≡ answered payloads.now self.old) }
    {
        let packets = spelled(alloc, self.first, payloads)?;
        self.outbox.say(&packets)?;
        self.answered = true;
        Ok(())
    }

    /// A piece of a reply comes, in packets with the sequence ids that the client is due.
    pub fn reply_piece(&mut self, packets: &[u8]) -> Result<(), OutOfMemory>
        ensures { OnOk result (self.new ≡ grown packets.now self.old) }
    {
        self.outbox.grow(packets)
    }

    /// The reply is whole, and answers the last message that was taken up. Takes no memory.
    pub fn reply(&mut self)
        ensures { self.new ≡ replied self.old }
    {
        self.outbox.finish();
        self.answered = true;
    }

    /// A statement of this class was answered, OK or not, which may move the client.
    pub fn moves(&mut self, alloc: Global, class: &Class, ok: bool) -> Result<(), OutOfMemory>
        ensures { OnOk result (self.new ≡ moved class.now ok self.old) }
    {
        move_place(alloc, &mut self.place, class, ok)
    }

    /// A statement was prepared, which gets the next number.
    pub fn keep(&mut self, alloc: Global, prepared: Prepared) -> Result<u32, AddFault>
        ensures is { OnOk result (self.new ≡ record self.old { statements = self.new.statements }) }
        ensures number { IfOk result (λ number. next_number self.old.statements ≡ Some number) }
        ensures last { IfOk result (λ number. self.new.statements.last ≡ number) }
        ensures added { IfOk result (λ number.
            Changes self.old.statements self.new.statements number (Some
            (fresh prepared))) }
    {
        self.statements.add(alloc, prepared)
    }
}

// Payloads in packets whose sequence ids go on.
#[tactic(auto, using(crate::proofs::Passing::spelled_on, crate::proofs::Passing::spelled_all))]
fn spelled(alloc: Global, first: u8, payloads: &[Bytes]) -> Result<Vec<u8>, OutOfMemory>
    ensures { IfOk result (λ packets. packets.items ≡ spellings first payloads.now) }
{
    let mut packets = Vec::new(alloc);
    let mut id = first;
    for payload in payloads {
        id = write_message(&mut packets, id, payload.as_slice())?;
    }
    Ok(packets)
}
