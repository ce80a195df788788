// What a client says next.
ghost use Rattle.std.specs.Prelude.{◌≡◌, IfOk};
ghost use Rattle.handshake.specs.declared.response.Response.{Response};
ghost use Rattle.packet_frame.specs.Packets.{next_id};
ghost use Rattle.client_side.specs.Client.{counted};
ghost use Rattle.client_side.specs.Login.{fault_id, needs_switch};

use crate::client::Client;
use crate::greeting::switch_packet;
use crate::stage::Stage;
use crate::step::{ClientFault, ClientStep};
use handshake::{HandFault, Response, read_response};
use mx_base::{Bytes, OutOfMemory};
use packet_frame::FrameFault;
use std::mem;

// The length of the longest body of a packet.
const LONGEST: u64 = 16_777_215;

/// One more, unless it is the last value.
pub fn counted(count: u64) -> u64
    ensures { result ≡ counted count }
{
    if count < u64::MAX { count + 1 } else { count }
}

// The sequence id of the answer to a packet that can't be, of a message that begins with the id `due`: the packets before
// one that makes it too large have the longest body.
fn fault_id(due: u8, fault: FrameFault) -> u8
    ensures { result ≡ fault_id due fault }
{
    match fault {
        FrameFault::OutOfOrder { found, .. } => following(found),
        FrameFault::TooLarge { length } => {
            let before = length.saturating_sub(1) / LONGEST % 256;
            following(due.wrapping_add(before as u8))
        }
    }
}

// The sequence id that follows.
fn following(id: u8) -> u8
    ensures { result ≡ next_id id }
{
    id.wrapping_add(1)
}

// Whether the response names another login method than the one that the router has.
fn needs_switch(response: &Response) -> bool
    ensures { result ≡ needs_switch response.now.plugin }
{
    match &response.plugin {
        Some(plugin) => plugin.as_slice() != b"mysql_native_password".as_slice(),
        None => false,
    }
}

impl Client {
    ghost use Rattle.std.specs.Prelude.{◌≡◌, ◌++◌, true, false, IsSome, IfSome, IfOk, OnOk, OnErr, Result, Err};
    ghost use Rattle.handshake.specs.declared.fault.HandFault.{HandFault};
    ghost use Rattle.handshake.specs.Reading.{Gives};
    ghost use Rattle.handshake.specs.Response.{response_of};
    ghost use Rattle.client_side.specs.Client.{ClientState, IsSame};
    ghost use Rattle.packet_frame.specs.Packets.{next_id};
    ghost use Rattle.packet_frame.specs.FramerState.{look};
    ghost use Rattle.client_side.specs.Client.{is_in};
    ghost use Rattle.client_side.specs.Steps.{look_login};
    ghost use Rattle.client_side.specs.Login.{switch_said};
    ghost use Rattle.client_side.specs.Steps.{next_of, response_found, response_read, answer_found, command_found, behind, asked, looked, IsAnswerNext, IsAnswerRead, IsFoundBy, IsUnread, IsUnanswered, IsHeldUp};

    /// What the client says next. A login or a command stays found until `done`. A client that names another login
    /// method is asked to switch (client/server protocol, "Protocol::AuthSwitchRequest"), by the same salt. A step Refused
    /// is answered again for good. OutOfMemory comes before the login alone, and the call after it answers what this one
    /// would have: no byte that was read is lost, and nobody is asked to switch twice.
    #[tactic(auto, using(crate::specs::HeldUp::next_again, crate::specs::HeldUp::next_same, crate::specs::HeldUp::held_up_same))]
    pub fn next(&mut self) -> Result<ClientStep, OutOfMemory>
        ensures found { IfOk result (λ step. IsFoundBy step self.new) }
        ensures err { OnErr result (IsHeldUp self.old.stage self.old self.new) }
        ensures again { OnErr result (next_of self.new.stage self.new ≡ next_of self.old.stage self.old) }
        ensures same { IsSame self.old self.new }
        ensures step { IfOk result (λ step. record { step = step; client = self.new } ≡ next_of self.old.stage self.old) }
    {
        match &self.stage {
            Stage::Response => self.next_response(),
            Stage::Answer(_) => self.next_answer(),
            Stage::Login { first, .. } => Ok(ClientStep::Login { first: *first }),
            Stage::Refused { first, fault } => Ok(ClientStep::Refused {
                first: *first,
                fault: ClientFault::Hand(*fault),
            }),
            Stage::Commands => Ok(self.next_command()),
        }
    }

    // The response, where it is whole.
    fn next_response(&mut self) -> Result<ClientStep, OutOfMemory>
        requires { is_in self.old.stage ≡ false }
        ensures step { IfOk result (λ step. record { step = step; client = self.new } ≡ response_found self.old (look_login 1 self.old.framer)) }
        ensures err { OnErr result (IsUnanswered self.old (look_login 1 self.old.framer) self.new) }
    {
        match self.framer.next(1) {
            Ok(None) => Ok(ClientStep::Nothing),
            Ok(Some(message)) => self.read(following(message.last)),
            Err(fault) => Ok(ClientStep::Refused {
                first: fault_id(1, fault),
                fault: ClientFault::Frame(fault),
            }),
        }
    }

    // The response that was found; `first` is the sequence id of an answer to it.
    fn read(&mut self, first: u8) -> Result<ClientStep, OutOfMemory>
        requires found { IsSome self.old.framer.found }
        requires login { is_in self.old.stage ≡ false }
        ensures step { IfOk result (λ step. IfSome self.old.framer.found (λ message. record { step = step; client = self.new } ≡ response_read first (response_of message.payload) (behind message self.old))) }
        ensures err { OnErr result (IfSome self.old.framer.found (λ message. IsUnread message self.old self.new)) }
    {
        match read_response(self.alloc, self.framer.payload()) {
            Ok(response) => {
                if needs_switch(&response) {
                    self.ask(response)?;
                    self.next_answer()
                } else {
                    self.framer.done();
                    self.stage = Stage::Login { response, first };
                    Ok(ClientStep::Login { first })
                }
            }
            Err(fault) => self.refuse(first, fault),
        }
    }

    // The response that was found can't be read.
    #[tactic(auto, using(crate::proofs::Given::given_fault))]
    fn refuse(&mut self, first: u8, fault: HandFault) -> Result<ClientStep, OutOfMemory>
        requires found { IsSome self.old.framer.found }
        requires login { is_in self.old.stage ≡ false }
        ensures step { IfOk result (λ step. IfSome self.old.framer.found (λ message. (read : Result Response HandFault) → Gives (Err fault) read → record { step = step; client = self.new } ≡ response_read first read (behind message self.old))) }
        ensures err { OnErr result (self.new ≡ self.old) }
    {
        match fault {
            HandFault::OutOfMemory => Err(OutOfMemory),
            fault => {
                self.framer.done();
                self.stage = Stage::Refused { first, fault };
                Ok(ClientStep::Refused {
                    first,
                    fault: ClientFault::Hand(fault),
                })
            }
        }
    }

    // The client is asked to switch.
    fn ask(&mut self, response: Response) -> Result<(), OutOfMemory>
        requires found { IsSome self.old.framer.found }
        requires login { is_in self.old.stage ≡ false }
        ensures ok { OnOk result (IfSome self.old.framer.found (λ message. self.new ≡ asked response (behind message self.old))) }
        ensures err { OnErr result (self.new ≡ self.old) }
    {
        self.say_switch()?;
        self.framer.done();
        self.stage = Stage::Answer(response);
        Ok(())
    }

    // The request to switch is to be written.
    fn say_switch(&mut self) -> Result<(), OutOfMemory>
        ensures ok { OnOk result (self.new ≡ record self.old { outgoing = self.old.outgoing ++ switch_said self.old.salt }) }
        ensures err { OnErr result (self.new ≡ self.old) }
    {
        let packet = switch_packet(self.alloc, &self.salt)?;
        self.outgoing.push(&packet)
    }

    // The bare answer, where it is whole.
    fn next_answer(&mut self) -> Result<ClientStep, OutOfMemory>
        requires { is_in self.old.stage ≡ false }
        ensures step { IfOk result (λ step. IsAnswerNext self.old.stage self.old (record { step = step; client = self.new })) }
        ensures err { OnErr result (self.new ≡ looked self.old (look_login 3 self.old.framer)) }
    {
        match self.framer.next(3) {
            Ok(None) => Ok(ClientStep::Nothing),
            Ok(Some(message)) => self.read_answer(following(message.last)),
            Err(fault) => Ok(ClientStep::Refused {
                first: fault_id(3, fault),
                fault: ClientFault::Frame(fault),
            }),
        }
    }

    // The bare answer that was found; `first` is the sequence id of an answer to it.
    fn read_answer(&mut self, first: u8) -> Result<ClientStep, OutOfMemory>
        requires found { IsSome self.old.framer.found }
        requires login { is_in self.old.stage ≡ false }
        ensures step { IfOk result (λ step. IfSome self.old.framer.found (λ message. first ≡ next_id message.last → IsAnswerRead self.old.stage message self.old (record { step = step; client = self.new }))) }
        ensures err { OnErr result (self.new ≡ self.old) }
    {
        let answer = Bytes::from_slice(self.alloc, self.framer.payload())?;
        self.framer.done();
        let stage = mem::replace(&mut self.stage, Stage::Response);
        if let Stage::Answer(mut response) = stage {
            response.answer = answer;
            self.stage = Stage::Login { response, first };
        }
        Ok(ClientStep::Login { first })
    }

    // The command, where one is whole.
    fn next_command(&mut self) -> ClientStep
        requires { is_in self.old.stage ≡ true }
        ensures { record { step = result; client = self.new } ≡ command_found self.old (look 0 self.old.framer) }
    {
        match self.framer.next(0) {
            Ok(None) => ClientStep::Nothing,
            Ok(Some(message)) => ClientStep::Message {
                ordinal: counted(self.arrived),
                first: following(message.last),
            },
            Err(fault) => ClientStep::Refused {
                first: fault_id(0, fault),
                fault: ClientFault::Frame(fault),
            },
        }
    }
}
