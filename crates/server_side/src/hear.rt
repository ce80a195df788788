// What is heard on a link to a server.
ghost use Rattle.std.specs.Prelude.{◌≡◌};

use crate::backend::Backend;
use crate::fault::BackendFault;
use crate::payloads::{
    answer_packet, asks_switch, denied, is_native, lacks_found_rows, response_packet,
};
use crate::stage::Stage;
use handshake::{Greeting, HandFault, Switch, read_greeting, read_switch};
use reply_text::is_lone_reply;

/// What was heard on a link to a server. Of the piece, `used` bytes are a part of the reply.
#[derive(Clone, Copy, Debug)]
pub enum Heard {
    /// The login goes on.
    Quiet,
    /// The router is logged in.
    LoggedIn,
    /// The reply goes on.
    Part { used: usize },
    /// The reply is whole.
    Whole { used: usize },
}

impl Backend {
    ghost use Rattle.std.specs.Prelude.{◌≡◌, length, IsSome, IfSome};
    ghost use Rattle.server_side.specs.Hearing.{Gives, Tells, alone_by, behind, entered_of, enters, got_of, hears, greeting_found, greeting_read, greeted, welcome_found, welcome_read, switched, end_found, end_read, accepted_by};
    ghost use Rattle.packet_frame.specs.FramerState.{look};

    /// Takes bytes that were read (client/server protocol, "Connection Phase", and "Command Phase" for what a reply is): of the
    /// login, in which the router says its response and a bare answer by itself, and then of the reply to the command of which
    /// a byte was written. A reply is any number of results, of which all but the last have MORE_RESULTS_EXISTS; it is kept
    /// until it is whole, and its sequence ids in the piece become those of the client. What stands behind its end isn't looked
    /// at. Behind a fault other than OutOfMemory nothing more is heard: BadBytes where no login and no reply goes on with the
    /// bytes, where nothing was due, and where FOUND_ROWS is wanted and isn't offered; Plugin where another login method is
    /// asked for; Denied where the server answers the login by an ERR.
    pub fn got(&mut self, piece: &mut [u8]) -> Result<Heard, BackendFault>
        ensures { Gives result self.new (got_of piece.old self.old) }
    {
        let heard = self.hear(piece);
        match &heard {
            Ok(_) => {}
            Err(BackendFault::OutOfMemory) => {}
            Err(_) => self.stage = Stage::Lost,
        }
        heard
    }

    /// Takes bytes of the login alone, as `got` does, but for bytes behind the OK that ends it: the router is logged in then, and `unasked`
    /// says how many there are.
    pub fn enter(&mut self, piece: &[u8]) -> Result<Heard, BackendFault>
        ensures { Gives result self.new (entered_of piece.now self.old) }
    {
        let heard = self.hear_login(piece);
        match &heard {
            Ok(_) => {}
            Err(BackendFault::OutOfMemory) => {}
            Err(_) => self.stage = Stage::Lost,
        }
        heard
    }

    /// How many bytes of the login are kept: behind its end those that nobody asked for.
    pub fn unasked(&self) -> u64
        ensures { result ≡ length self.now.framer.kept }
    {
        self.framer.kept()
    }

    // What the piece says.
    fn hear(&mut self, piece: &mut [u8]) -> Result<Heard, BackendFault>
        ensures { Tells result self.new (hears self.old.stage piece.old self.old) }
    {
        match self.stage {
            Stage::In => self.hear_reply(piece),
            Stage::Greeting | Stage::Welcome | Stage::Switched | Stage::Lost => {
                match self.hear_login(piece) {
                    Ok(heard) => self.alone(heard),
                    Err(fault) => Err(fault),
                }
            }
        }
    }

    // Bytes behind the login's end are bad.
    fn alone(&mut self, heard: Heard) -> Result<Heard, BackendFault>
        ensures { Tells result self.new (alone_by heard self.old) }
    {
        match heard {
            Heard::LoggedIn => {
                if self.framer.kept() != 0 {
                    return Err(BackendFault::BadBytes { at: 0 });
                }
                Ok(Heard::LoggedIn)
            }
            heard => Ok(heard),
        }
    }

    // What the piece says of the login, which keeps what it reads until a message is whole.
    fn hear_login(&mut self, piece: &[u8]) -> Result<Heard, BackendFault>
        ensures { Tells result self.new (enters self.old.stage piece.now self.old) }
    {
        match self.stage {
            Stage::Greeting => {
                self.framer.feed(piece)?;
                self.hear_greeting()
            }
            Stage::Welcome => {
                self.framer.feed(piece)?;
                self.hear_welcome()
            }
            Stage::Switched => {
                self.framer.feed(piece)?;
                self.hear_end()
            }
            Stage::In | Stage::Lost => Err(BackendFault::BadBytes { at: 0 }),
        }
    }

    // The greeting, where it is whole.
    fn hear_greeting(&mut self) -> Result<Heard, BackendFault>
        ensures { Tells result self.new (greeting_found self.old (look 0 self.old.framer)) }
    {
        match self.framer.next(0) {
            Ok(None) => Ok(Heard::Quiet),
            Ok(Some(_)) => self.read_greeting(),
            Err(_) => Err(BackendFault::BadBytes { at: 0 }),
        }
    }

    // The greeting that was found.
    fn read_greeting(&mut self) -> Result<Heard, BackendFault>
        requires { IsSome self.old.framer.found }
        ensures { IfSome self.old.framer.found (λ message. Tells result self.new (greeting_read message (behind message self.old))) }
    {
        if let Some(code) = denied(self.framer.payload()) {
            return Err(BackendFault::Denied { code });
        }
        let greeting = read_greeting(self.alloc, self.framer.payload());
        self.framer.done();
        match greeting {
            Ok(greeting) => self.respond(&greeting),
            Err(HandFault::OutOfMemory) => Err(BackendFault::OutOfMemory),
            Err(_) => Err(BackendFault::BadBytes { at: 0 }),
        }
    }

    // The response is said.
    fn respond(&mut self, greeting: &Greeting) -> Result<Heard, BackendFault>
        ensures { Tells result self.new (greeted greeting.now self.old) }
    {
        if lacks_found_rows(self.account.found_rows(), greeting.capabilities) {
            return Err(BackendFault::BadBytes { at: 0 });
        }
        let packet = response_packet(self.alloc, &self.account, greeting)?;
        self.own.push(&packet)?;
        self.stage = Stage::Welcome;
        self.hear_welcome()
    }

    // What the server says to the response, where it is whole.
    fn hear_welcome(&mut self) -> Result<Heard, BackendFault>
        ensures { Tells result self.new (welcome_found self.old (look 2 self.old.framer)) }
    {
        match self.framer.next(2) {
            Ok(None) => Ok(Heard::Quiet),
            Ok(Some(_)) => self.read_welcome(),
            Err(_) => Err(BackendFault::BadBytes { at: 0 }),
        }
    }

    // What was found behind the response.
    fn read_welcome(&mut self) -> Result<Heard, BackendFault>
        requires { IsSome self.old.framer.found }
        ensures { IfSome self.old.framer.found (λ message. Tells result self.new (welcome_read message (behind message self.old))) }
    {
        if !asks_switch(self.framer.payload()) {
            return self.read_end();
        }
        let switch = read_switch(self.alloc, self.framer.payload());
        self.framer.done();
        match switch {
            Ok(switch) => self.switch(switch),
            Err(HandFault::OutOfMemory) => Err(BackendFault::OutOfMemory),
            Err(_) => Err(BackendFault::BadBytes { at: 0 }),
        }
    }

    // The bare answer is said.
    fn switch(&mut self, switch: Switch) -> Result<Heard, BackendFault>
        ensures { Tells result self.new (switched switch self.old) }
    {
        if !is_native(switch.plugin.as_slice()) {
            return Err(BackendFault::Plugin {
                name: switch.plugin,
            });
        }
        let packet = answer_packet(self.alloc, &self.account, &switch.salt)?;
        self.own.push(&packet)?;
        self.stage = Stage::Switched;
        self.hear_end()
    }

    // What the server says to the bare answer, where it is whole.
    fn hear_end(&mut self) -> Result<Heard, BackendFault>
        ensures { Tells result self.new (end_found self.old (look 4 self.old.framer)) }
    {
        match self.framer.next(4) {
            Ok(None) => Ok(Heard::Quiet),
            Ok(Some(_)) => self.read_end(),
            Err(_) => Err(BackendFault::BadBytes { at: 0 }),
        }
    }

    // What was found is the end of the login.
    fn read_end(&mut self) -> Result<Heard, BackendFault>
        requires { IsSome self.old.framer.found }
        ensures { IfSome self.old.framer.found (λ message. Tells result self.new (end_read message (behind message self.old))) }
    {
        if let Some(code) = denied(self.framer.payload()) {
            return Err(BackendFault::Denied { code });
        }
        let accepted = is_lone_reply(self.framer.payload());
        self.framer.done();
        self.accept(accepted)
    }

    // An OK logs the router in.
    fn accept(&mut self, accepted: bool) -> Result<Heard, BackendFault>
        ensures { Tells result self.new (accepted_by accepted self.old) }
    {
        if !accepted {
            return Err(BackendFault::BadBytes { at: 0 });
        }
        self.stage = Stage::In;
        Ok(Heard::LoggedIn)
    }
}
