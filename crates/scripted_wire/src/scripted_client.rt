// A client that follows a script.
ghost use Rattle.std.specs.Prelude.{◌≡◌, ◌<◌, not, length, is_some, IfOk, OnOk};
ghost use Rattle.handshake.specs.Spelling.{IsText};
ghost use Rattle.server_side.specs.declared.hear.Heard.{Heard as TheHeard};
ghost use Rattle.scripted_wire.specs.Giving.{Gives, is_some_of};
ghost use Rattle.scripted_wire.specs.Scripts.{first_client, is_quit, course_behind, is_free, goes_on, ends_piece, HearsSo, HearsPiece, left_bytes, client_unread, client_ends, client_read, is_finished};
ghost use Rattle.server_side.specs.Hearing.{got_of};
ghost use Rattle.server_side.specs.Backend.{left};

use crate::course::Course;
use crate::giving::give;
use mx_base::{Bytes, OutOfMemory, Tag};
use mx_wire::Got;
use server_side::{Backend, BackendFault, Heard, Stage};
use std::alloc::Global;

/// A client that follows a script (client/server protocol, "Connection Lifecycle"): its link as it sees that, the place of its script,
/// and how many of the commands there it has said.
#[derive(Drop)]
pub(crate) struct ScriptedClient {
    pub backend: Backend,
    pub script: usize,
    pub said: usize,
    pub course: Course,
}

// Whether a command is COM_QUIT.
fn is_quit(payload: &[u8]) -> bool
    ensures { result ≡ is_quit payload.now }
{
    payload.first() == Some(&0x01)
}

// How a client goes on behind a command.
fn course_behind(payload: &[u8]) -> Course
    ensures { result ≡ course_behind payload.now }
{
    if is_quit(payload) {
        Course::Quits
    } else {
        Course::Talks
    }
}

// Whether nothing stands behind a reply that is whole with a piece.
fn ends_piece(size: usize, heard: &Heard) -> bool
    ensures { result ≡ ends_piece size heard.now }
{
    match heard {
        Heard::Whole { used } => *used == size,
        _ => true,
    }
}

impl ScriptedClient {
    /// A client that has heard nothing.
    pub fn new(
        alloc: Global,
        script: usize,
        user: &[u8],
        password: &[u8],
    ) -> Result<Self, OutOfMemory>
        requires { IsText user.now }
        ensures { IfOk result (λ client. client ≡ first_client script user.now password.now) }
    {
        Ok(ScriptedClient {
            backend: Backend::new(alloc, user, password, false)?,
            script,
            said: 0,
            course: Course::Talks,
        })
    }

    /// These bytes are written to the client, whose script has these commands. Behind OutOfMemory nothing is promised.
    pub fn hear(
        &mut self,
        alloc: Global,
        commands: &[Bytes],
        piece: &[u8],
    ) -> Result<(), OutOfMemory>
        ensures { OnOk result (HearsPiece commands.now piece.now self.old self.new) }
    {
        match self.course {
            Course::Talks => {
                let mut piece = piece.to_vec(alloc)?;
                self.hear_piece(commands, &mut piece)
            }
            Course::Quits => Ok(()),
            Course::Lost => Ok(()),
        }
    }

    // What these bytes tell.
    fn hear_piece(&mut self, commands: &[Bytes], piece: &mut [u8]) -> Result<(), OutOfMemory>
        ensures { OnOk result (HearsSo commands.now (length piece.old) (got_of piece.old self.old.backend) self.old self.new) }
    {
        let size = piece.len();
        match self.backend.got(piece) {
            Ok(heard) => {
                if ends_piece(size, &heard) {
                    self.go_on(commands)
                } else {
                    self.course = Course::Lost;
                    Ok(())
                }
            }
            Err(BackendFault::OutOfMemory) => Err(OutOfMemory),
            Err(_) => {
                self.course = Course::Lost;
                Ok(())
            }
        }
    }

    // Whether it is logged in, and the reply to its last command is whole.
    fn is_free(&self) -> bool
        ensures { result ≡ is_free self.now.backend }
    {
        matches!(self.backend.stage(), Stage::In) && !self.backend.has_command()
    }

    // Says the next command, where it may.
    fn go_on(&mut self, commands: &[Bytes]) -> Result<(), OutOfMemory>
        ensures { OnOk result (self.new ≡ goes_on commands.now self.old) }
    {
        if !self.is_free() {
            return Ok(());
        }
        let Some(payload) = commands.get(self.said) else {
            return Ok(());
        };
        let payload = payload.as_slice();
        self.backend.command(Tag::Own, payload, 1)?;
        self.said += 1;
        self.course = course_behind(payload);
        Ok(())
    }

    /// Reads what it has said.
    pub fn give(&mut self, into: &mut [u8]) -> Got
        requires { 0 < length into.old }
        ensures gives { Gives (client_unread self.old.course self.old.backend) (client_ends self.old.course) into.old into.new result }
        ensures rest { self.new ≡ client_read result self.old }
    {
        match self.course {
            Course::Talks => self.give_left(into, false),
            Course::Quits => self.give_left(into, true),
            Course::Lost => Got::End,
        }
    }

    // Reads what is left to be read. Behind that the link ends or doesn't.
    #[tactic(auto, using(crate::proofs::Left::lent_none))]
    fn give_left(&mut self, into: &mut [u8], ends: bool) -> Got
        requires { 0 < length into.old }
        ensures gives { Gives (left_bytes (left self.old.backend)) ends into.old into.new result }
        ensures rest { self.new ≡ client_read result self.old }
    {
        let Some(outgoing) = self.backend.outgoing() else {
            return if ends { Got::End } else { Got::NotReady };
        };
        let n = give(outgoing.bytes, into);
        self.backend.taken(n);
        Got::Got { n }
    }

    /// Whether bytes can be read of it.
    #[tactic(auto, using(crate::proofs::Left::lent_some_of))]
    pub fn has_said(&self) -> bool
        ensures { result ≡ is_some_of (client_unread self.now.course self.now.backend) }
    {
        match self.course {
            Course::Talks => self.backend.outgoing().is_some(),
            Course::Quits => self.backend.outgoing().is_some(),
            Course::Lost => false,
        }
    }

    /// Whether its link ends behind what it has said.
    pub fn ends(&self) -> bool
        ensures { result ≡ client_ends self.now.course }
    {
        match self.course {
            Course::Talks => false,
            Course::Quits => true,
            Course::Lost => true,
        }
    }

    /// Whether all of so many commands are said, and the last reply is whole.
    pub fn is_finished(&self, commands: usize) -> bool
        ensures { result ≡ is_finished commands self.now }
    {
        self.is_free() && commands <= self.said
    }
}
