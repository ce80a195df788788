// A mark of a server's link.
ghost use Rattle.std.specs.Prelude.{◌≡◌};
ghost use Rattle.mem_wire.specs.Marks.{mark_entry};

use mx_base::LinkId;
use mx_wire::Entry;

/// What a server did: it ran a command, or it closed the session of the link.
#[derive(Clone, Copy)]
pub(crate) enum Mark {
    Exec,
    Drop,
}

impl Mark {
    /// The entry of the mark, on this link.
    pub fn on(self, link: LinkId) -> Entry
        ensures { result ≡ mark_entry link self }
    {
        match self {
            Mark::Exec => Entry::Exec { link },
            Mark::Drop => Entry::Drop { link },
        }
    }
}
