// What a link stands at: what may begin there, and whether it may be lent or is to be given back.
ghost use Rattle.std.specs.Prelude.{◌≡◌};
ghost use Rattle.served_link.specs.Rests.{is_at_work, is_bare, is_done, is_entering, is_plain, is_resetting, is_resting, is_stepping, is_vacant, may_part, may_take};

use crate::row::Row;
use lent_link::Step;
use link_state::Session;
use mx_base::Bytes;

fn is_resetting(step: Step) -> bool
    ensures { result ≡ is_resetting step }
{
    match step {
        Step::Resets(_) => true,
        _ => false,
    }
}

// It was told no schema.
fn is_plain(told: &Option<Bytes>) -> bool
    ensures { result ≡ is_plain told.now }
{
    match told {
        Some(schema) => schema.as_slice().is_empty(),
        None => false,
    }
}

impl Row {
    /// Whether its login isn't through. Takes no memory.
    pub fn is_entering(&self) -> bool
        ensures { result ≡ is_entering self.now }
    {
        !self.lost && !self.link.is_in() && !self.link.spoilt
    }

    /// Whether it is logged in and carries nobody: it can be lent, where its server is ONLINE. Takes no memory.
    pub fn is_vacant(&self) -> bool
        ensures { result ≡ is_vacant self.now }
    {
        !self.lost && !self.link.quits && self.is_unlent()
    }

    /// Whether what stands there is unanswered; `dry` says that the link takes no more bytes. Takes no memory.
    pub fn is_at_work(&self, dry: bool) -> bool
        ensures { result ≡ is_at_work self.now dry }
    {
        !self.link.state.is_quiet() || is_resetting(self.link.step) || dry
    }

    /// Whether a step is under way while it carries nobody. Takes no memory.
    pub fn is_stepping(&self, dry: bool) -> bool
        ensures { result ≡ is_stepping self.now dry }
    {
        self.is_vacant() && self.is_at_work(dry)
    }

    /// Whether nothing is under way while it carries nobody. Takes no memory.
    pub fn is_resting(&self, dry: bool) -> bool
        ensures { result ≡ is_resting self.now dry }
    {
        self.is_vacant() && !self.is_at_work(dry)
    }

    /// Whether a question, a STMT_CLOSE or a STMT_RESET may begin there. Takes no memory.
    pub fn may_take(&self) -> bool
        ensures { result ≡ may_take self.now }
    {
        !self.link.spoilt && self.may_part()
    }

    /// Whether QUIT may begin there. Takes no memory.
    pub fn may_part(&self) -> bool
        ensures { result ≡ may_part self.now }
    {
        !self.lost && !self.link.quits && self.link.may_begin()
    }

    /// Whether it is to be given back; `at_desk` is the session that it carries, where that wasn't left, and `given_up` says that the router
    /// answered itself what it was lent for. Takes no memory.
    pub fn is_done(&self, at_desk: Session, given_up: bool) -> bool
        ensures { result ≡ is_done self.now at_desk given_up }
    {
        !self.lost && self.link.is_done(self.session(at_desk), given_up)
    }

    /// Whether it is of those that are told no schema. Takes no memory.
    pub fn is_bare(&self) -> bool
        ensures { result ≡ is_bare self.now }
    {
        self.bare && (!self.link.is_in() || is_plain(&self.link.state.told.schema))
    }
}
