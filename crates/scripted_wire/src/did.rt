// What a server did on a link at a wake.
ghost use Rattle.std.specs.Prelude.{◌≡◌};
ghost use Rattle.scripted_wire.specs.Marks.{mark_of, is_work};

use mx_base::LinkId;
use mx_wire::Entry;

/// What a server did on a link at a wake.
#[derive(Clone, Copy)]
pub enum Did {
    Nothing,
    /// It answered a login.
    Answered,
    /// It ran a command.
    Ran,
    /// It closed the session of the link by itself.
    Dropped,
}

impl Did {
    /// The mark of it in the log, where it has one.
    pub fn mark(self, link: LinkId) -> Option<Entry>
        ensures { result ≡ mark_of link self }
    {
        match self {
            Did::Nothing => None,
            Did::Answered => None,
            Did::Ran => Some(Entry::Exec { link }),
            Did::Dropped => Some(Entry::Drop { link }),
        }
    }

    /// Whether it did anything.
    pub fn is_work(self) -> bool
        ensures { result ≡ is_work self }
    {
        !matches!(self, Did::Nothing)
    }
}
