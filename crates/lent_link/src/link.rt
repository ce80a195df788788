// A link to a server.
ghost use Rattle.std.specs.Prelude.{◌≡◌, ◌<◌, IfOk};
ghost use Rattle.mx_base.specs.Sent.{IsLent, MayTake};
ghost use Rattle.handshake.specs.Spelling.{IsText};
ghost use Rattle.lent_link.specs.Links.{begun, is_in, left_in, left_of, new_link, stands_next, unbegun, wrote_on};

use crate::reading::Reading;
use link_state::{Asking, LinkState, Stage as At, Writing};
use mx_base::{Bytes, OutOfMemory, Piece, ServerId, Tag};
use server_side::{Backend, Stage};
use std::alloc::Global;

/// What begins with the first byte of what is to be written.
#[derive(Drop)]
pub enum Begins {
    /// A question.
    Asks(Asking),
    /// STMT_CLOSE of this number.
    Closes(u32),
    /// STMT_RESET of this number.
    Resets(u32),
    /// COM_QUIT.
    Quits,
}

/// What began last, where it is a step of the router's own that is no question.
#[derive(Clone, Copy)]
pub enum Step {
    Other,
    Closes(u32),
    Resets(u32),
}

/// A link to a server: the login there; behind it what stands there, the last step, whether it was told QUIT; what is to be written, and
/// what begins with its first byte; the reply under way, the sequence id with which it begins for the client and the client's number of
/// what it prepares; and whether the link is of no use any more.
#[derive(Drop)]
pub struct LentLink {
    pub server: ServerId,
    pub login: Backend,
    pub state: LinkState,
    pub step: Step,
    pub quits: bool,
    pub next: Option<Begins>,
    pub writing: Option<Writing>,
    pub reading: Option<Reading>,
    pub first: u8,
    pub number: u32,
    pub spoilt: bool,
}

impl LentLink {
    /// A link that was opened, on which nothing was heard. The user's name has no NUL.
    pub fn new(
        alloc: Global,
        server: ServerId,
        user: &[u8],
        password: &[u8],
        found_rows: bool,
    ) -> Result<Self, OutOfMemory>
        requires { IsText user.now }
        ensures { IfOk result (λ link. link ≡ new_link server (record { user = user.now; password = password.now; found_rows = found_rows })) }
    {
        Ok(LentLink {
            server,
            login: Backend::new(alloc, user, password, found_rows)?,
            state: LinkState::new(alloc)?,
            step: Step::Other,
            quits: false,
            next: None,
            writing: None,
            reading: None,
            first: 0,
            number: 0,
            spoilt: false,
        })
    }

    /// Whether the router is logged in there.
    pub fn is_in(&self) -> bool
        ensures { result ≡ is_in self.now.login.stage }
    {
        match self.login.stage() {
            Stage::In => true,
            _ => false,
        }
    }

    /// This is to be written next, in place of what is to be written and of which no byte was. The answer to it begins with the sequence id
    /// `first` for the client, which knows what it prepares by `number`. Takes no memory.
    pub fn begin(&mut self, tag: Tag, bytes: Bytes, next: Begins, first: u8, number: u32)
        ensures { self.new ≡ stands_next tag bytes next first number self.old }
    {
        self.next = Some(next);
        self.writing = Some(Writing::new(tag, bytes));
        self.first = first;
        self.number = number;
    }

    /// What is to be written next, and of which no byte was, is taken back; nothing changes where a byte of it was. Takes no memory.
    pub fn unbegin(&mut self)
        ensures { self.new ≡ unbegun self.old }
    {
        if self.next.is_some() {
            self.next = None;
            self.writing = None;
        }
    }

    /// What is to be written, with its tag. Of a question nothing more is once a byte of its answer was read.
    pub fn outgoing(&self) -> Option<Piece<'_>>
        ensures { IsLent result (left_in self.now) }
    {
        if !self.is_in() {
            return self.login.outgoing();
        }
        match &self.state.stage {
            At::Answered(_) => None,
            _ => self.left(),
        }
    }

    // What isn't written yet of what stands there.
    fn left(&self) -> Option<Piece<'_>>
        ensures { IsLent result (left_of self.now.writing) }
    {
        match &self.writing {
            Some(writing) => writing.outgoing(),
            None => None,
        }
    }

    // It begins.
    fn begun(&mut self, next: Begins)
        ensures { self.new ≡ begun next self.old }
    {
        match next {
            Begins::Asks(asking) => {
                self.step = Step::Other;
                self.state.ask(asking);
            }
            Begins::Closes(number) => {
                self.step = Step::Closes(number);
                self.state.close_number(number);
            }
            Begins::Resets(number) => self.step = Step::Resets(number),
            Begins::Quits => {
                self.step = Step::Other;
                self.quits = true;
            }
        }
    }

    /// So many bytes of it were written, at least one: with the first it begins. Takes no memory.
    #[tactic(auto, using(crate::proofs::Taking::may_take))]
    pub fn wrote(&mut self, count: usize)
        requires there { MayTake (left_in self.old) count }
        ensures { self.new ≡ wrote_on count self.old }
    {
        if !self.is_in() {
            self.login.taken(count);
            return;
        }
        if let Some(writing) = &mut self.writing {
            writing.wrote(count);
        }
        if let Some(next) = std::mem::replace(&mut self.next, None) {
            self.begun(next);
        }
    }
}
