// What is written on a link.
ghost use Rattle.std.specs.Prelude.{◌≡◌};
ghost use Rattle.mx_base.specs.Sent.{MayTake};
ghost use Rattle.lent_link.specs.Links.{left_in};
ghost use Rattle.served_link.specs.Writes.{began, lengthened, lends, next_kind, used_for, wrote};

use crate::row::Row;
use lent_link::Begins;
use link_state::Purpose;

/// What begins with the next byte that is written, by what it makes of how a link is used.
#[derive(Clone, Copy)]
pub enum Kind {
    /// Nothing: what began goes on.
    GoesOn,
    /// A question.
    Asks(Purpose),
    /// A STMT_CLOSE or a STMT_RESET of this number.
    Drops(u32),
    /// COM_QUIT.
    Quits,
}

fn lends(purpose: Purpose) -> bool
    ensures { result ≡ lends purpose }
{
    match purpose {
        Purpose::Statement { .. } => true,
        Purpose::Prep { .. } => true,
        _ => false,
    }
}

impl Row {
    // What begins with the next byte.
    fn next_kind(&self) -> Kind
        ensures { result ≡ next_kind self.now.link }
    {
        if !self.link.is_in() {
            return Kind::GoesOn;
        }
        match &self.link.next {
            None => Kind::GoesOn,
            Some(Begins::Asks(asking)) => Kind::Asks(asking.purpose),
            Some(Begins::Closes(number)) => Kind::Drops(*number),
            Some(Begins::Resets(number)) => Kind::Drops(*number),
            Some(Begins::Quits) => Kind::Quits,
        }
    }

    // With an execute its long data are there.
    fn lengthen(&mut self)
        ensures { self.new ≡ lengthened self.old }
    {
        if let Some(long) = std::mem::replace(&mut self.longer, None) {
            self.long = long;
        }
    }

    // How it is used by bytes that begin so.
    fn use_for(&mut self, kind: Kind, now: u64)
        ensures { self.new ≡ used_for kind now self.old }
    {
        match kind {
            Kind::GoesOn => {
                if !self.link.quits {
                    self.used = now;
                }
            }
            Kind::Asks(purpose) => {
                self.used = now;
                self.lengthen();
                if lends(purpose) {
                    self.readied = None;
                }
            }
            Kind::Drops(number) => {
                self.used = now;
                self.long.remove(number);
            }
            Kind::Quits => {}
        }
    }

    /// So many of the bytes that the link lends were written at this moment, at least one: with the first what is to be written begins. The
    /// question is told that begins. Takes no memory.
    pub fn wrote(&mut self, count: usize, now: u64) -> Option<Purpose>
        requires { MayTake (left_in self.old.link) count }
        ensures began { result ≡ began (next_kind self.old.link) }
        ensures row { self.new ≡ wrote count now self.old }
    {
        let kind = self.next_kind();
        self.use_for(kind, now);
        self.link.wrote(count);
        match kind {
            Kind::Asks(purpose) => Some(purpose),
            _ => None,
        }
    }
}
