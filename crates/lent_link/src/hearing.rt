// What is read on a link to a server.
ghost use Rattle.std.specs.Prelude.{◌≡◌};
ghost use Rattle.server_side.specs.Hearing.{Gives, entered_of};
ghost use Rattle.lent_link.specs.Hears.{entered, expecting, followed, id_written, read_by};

use crate::link::{LentLink, Step};
use crate::reading::{Reading, Took};
use link_state::Stage as At;
use reply_track::ReplyKind;
use server_side::{BackendFault, Heard};

impl LentLink {
    /// Bytes were read in the login. Behind a fault the link is of no use any more; nor is it where bytes that nobody asked for stand
    /// behind the OK that logs the router in.
    pub fn enter(&mut self, piece: &mut [u8]) -> Result<Heard, BackendFault>
        ensures heard { Gives result self.new.login (entered_of piece.old self.old.login) }
        ensures rest { self.new ≡ entered result self.new.login self.old }
    {
        let heard = self.login.enter(piece);
        match &heard {
            Ok(Heard::LoggedIn) => {
                let unasked = self.login.unasked();
                self.spoilt = self.spoilt || unasked != 0;
            }
            Ok(_) => {}
            Err(_) => self.spoilt = true,
        }
        heard
    }

    // The sequence id with which an answer to what is written begins.
    fn id_written(&self) -> u8
        ensures { result ≡ id_written self.now.writing }
    {
        match &self.writing {
            Some(writing) => writing.answer_id(),
            None => 1,
        }
    }

    // A byte of an answer was read: what stands there runs, where it isn't run yet.
    fn expect(&mut self)
        ensures { self.new ≡ expecting self.old }
    {
        if self.reading.is_some() {
            return;
        }
        let id = self.id_written();
        if let Step::Resets(_) = self.step {
            self.reading = Some(Reading::new(ReplyKind::Command, id, self.first, self.number));
            return;
        }
        let kind = match &self.state.stage {
            At::Asked(asking) => asking.form.kind(),
            _ => return,
        };
        self.state.run();
        self.reading = Some(Reading::new(kind, id, self.first, self.number));
    }

    // The reply under way took a piece of so many bytes.
    fn follow(&mut self, reading: Reading, took: Took, size: usize)
        ensures { self.new ≡ followed reading took size self.old }
    {
        match took {
            Took::Part => self.reading = Some(reading),
            Took::Whole { used, .. } => {
                self.reading = None;
                self.writing = None;
                self.step = Step::Other;
                self.spoilt = self.spoilt || used < size;
            }
            Took::Bad { .. } => self.spoilt = true,
        }
    }

    // A piece of the reply under way comes, or bytes that nobody asked for.
    fn take(&mut self, piece: &mut [u8]) -> Took
        ensures { read_by result self.new piece.new self.old piece.old }
    {
        match self.reading {
            Some(mut reading) => {
                let took = reading.take(piece);
                self.follow(reading, took, piece.len());
                took
            }
            None => {
                self.spoilt = true;
                Took::Bad { place: 0 }
            }
        }
    }

    /// Bytes were read behind the login: of the answer to what stands there, which become the client's. Bytes that nobody asked for, bytes
    /// with which no answer goes on, and bytes behind its end spoil the link. Takes no memory.
    pub fn read(&mut self, piece: &mut [u8]) -> Took
        ensures { read_by result self.new piece.new (expecting self.old) piece.old }
    {
        self.expect();
        self.take(piece)
    }
}
