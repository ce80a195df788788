// The message that the kept bytes begin with.
use crate::fault::FrameFault;
use crate::header::packet_of;
use crate::kept::Kept;
use crate::message::Message;

impl Kept {
    ghost use Rattle.std.specs.Prelude.{◌≡◌, ◌≢◌, ◌<◌, ◌+◌, ◌%◌, length, OnOk, IfErr, None};
    ghost use Rattle.mx_base.specs.Fields.{AreBytes};
    ghost use Rattle.packet_frame.specs.declared.fault.FrameFault.TheVariants.{OutOfOrder};
    ghost use Rattle.packet_frame.specs.Packets.{first_packet, first_message};
    ghost use Rattle.packet_frame.specs.FramerState.{answer};
    ghost use Rattle.packet_frame.specs.Joining.{Joined, as_read, joined_message, found_in, next_joined, next_told, IsJoined};

    /// The message of at most `limit` bytes that the bytes begin with, whose first packet has to have the sequence id
    /// `first`; its packets are joined then, and so are those that are there of one that isn't whole.
    pub fn find(&mut self, limit: u64, first: u8) -> Result<Option<Message>, FrameFault>
        requires { IsJoined limit self.old }
        ensures found { result ≡ answer (first_message limit first (as_read self.old)) }
        ensures same { as_read self.new ≡ as_read self.old }
        ensures joined { IsJoined limit self.new }
        ensures message { OnOk result (joined_message self.new ≡ found_in (first_message limit first (as_read self.old))) }
    {
        self.begin(first)?;
        self.join_all(limit)
    }

    // A message begins with the sequence id `first`; OutOfOrder where a packet with another one is joined.
    fn begin(&mut self, first: u8) -> Result<(), FrameFault>
        ensures ok { OnOk result ((self.new ≡ record self.old { first = first }) × (as_read self.new ≡ as_read self.old)) }
        ensures err { IfErr result (λ fault. (fault ≡ OutOfOrder first self.old.first) × (self.new ≡ self.old) × (0 < self.old.packets) × (first ≢ self.old.first)) }
    {
        if self.packets() == 0 {
            self.set_first(first);
            return Ok(());
        }
        let found = self.first();
        if found == first {
            Ok(())
        } else {
            Err(FrameFault::OutOfOrder {
                expected: first,
                found,
            })
        }
    }

    // Joins the packets of the message as far as they are there.
    fn join_all(&mut self, limit: u64) -> Result<Option<Message>, FrameFault>
        requires { IsJoined limit self.old }
        ensures found { result ≡ answer (first_message limit self.old.first (as_read self.old)) }
        ensures same { as_read self.new ≡ as_read self.old }
        ensures joined { IsJoined limit self.new }
        ensures message { OnOk result (joined_message self.new ≡ found_in (first_message limit self.old.first (as_read self.old))) }
    {
        loop {
            if let Some(message) = self.message() {
                return Ok(Some(message));
            }
            if !self.join_next(limit)? {
                return Ok(None);
            }
        }
    }

    // Joins the next packet of the message; false where it isn't whole.
    fn join_next(&mut self, limit: u64) -> Result<bool, FrameFault>
        ensures told { result ≡ next_told (first_packet limit (length self.old.payload) ((self.old.first + self.old.packets) % 256) self.old.rest) }
        ensures after { self.new ≡ next_joined (first_packet limit (length self.old.payload) ((self.old.first + self.old.packets) % 256) self.old.rest) self.old }
        ensures bytes { AreBytes self.old.rest }
    {
        let announced = self.size() as u64;
        match packet_of(limit, announced, self.due(), self.rest())? {
            Some(body) => {
                self.join(body);
                Ok(true)
            }
            None => Ok(false),
        }
    }
}
