// The last word to a client.
ghost use Rattle.std.specs.Prelude.{◌≡◌, OnOk};
ghost use Rattle.client_seat.specs.Words.{behind_messages};

use crate::phase::Phase;
use crate::seat::Seat;
use client_side::{Client, ClientStep};
use mx_base::OutOfMemory;
use packet_frame::write_message;
use std::alloc::Global;

/// The sequence id behind a client's response, which is one packet.
const BEHIND_RESPONSE: u8 = 2;

impl Seat {
    ghost use Rattle.std.specs.Prelude.{◌≡◌, OnOk, IfOk};
    ghost use Rattle.client_seat.specs.Words.{with_word, word_id};

    // The sequence id of the last word.
    fn word_id(&mut self) -> Result<u8, OutOfMemory>
        ensures id { IfOk result (λ id. id ≡ word_id self.old) }
        ensures same { OnOk result (self.new ≡ record self.old { client = self.new.client }) }
    {
        match self.phase {
            Phase::LoggingIn => Ok(if self.switched {
                BEHIND_RESPONSE
            } else {
                self.client.err_id(&[])
            }),
            Phase::Serving(_) => {
                pass_messages(&mut self.client)?;
                Ok(self.client.err_id(&[]))
            }
            Phase::Ended => Ok(0),
        }
    }

    /// This error is the last that the client is told, behind all else, or in place of the answer to its login; no more is read
    /// of it. Messages that weren't taken up are dropped.
    pub fn last_word(&mut self, alloc: Global, payload: &[u8]) -> Result<(), OutOfMemory>
        ensures { OnOk result (self.new ≡ with_word payload.now self.new.client self.old) }
    {
        let first = self.word_id()?;
        let mut packets = Vec::new(alloc);
        write_message(&mut packets, first, payload)?;
        self.outbox.say(&packets)?;
        self.end();
        Ok(())
    }
}

// The messages that are whole are passed over.
#[tactic(auto, using(crate::proofs::Passing::rests_so))]
fn pass_messages(client: &mut Client) -> Result<(), OutOfMemory>
    ensures { OnOk result (client.new.framer.kept ≡ behind_messages client.old) }
{
    'passing: loop {
        match client.next()? {
            ClientStep::Message { .. } => client.done(),
            _ => return Ok(()),
        }
    }
}
