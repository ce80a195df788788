// The marks that stand before the next call's entry.
ghost use Rattle.std.specs.Prelude.{◌≡◌, []};

use crate::marks::Mark;
use mx_base::{Items, LinkId};
use std::alloc::Global;

/// The marks that stand before the next call's entry: those of the link that was opened just before.
#[derive(Drop)]
pub(crate) struct Late {
    pub link: LinkId,
    pub marks: Items<Mark>,
}

impl Late {
    /// No marks.
    pub fn none(alloc: Global) -> Self
        ensures { result.marks ≡ [] }
    {
        Late {
            link: LinkId(0),
            marks: Items::new(alloc),
        }
    }

    /// The marks are told.
    pub fn clear(&mut self)
        ensures { self.new.marks ≡ [] }
    {
        self.marks.clear();
    }
}
