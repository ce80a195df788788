// Where the entries of each link stand in a log.
ghost use Rattle.std.specs.Prelude.{◌≡◌, ◌++◌, ◌∷◌, [], OnOk, false, nat_eq};
ghost use Rattle.mx_base.specs.declared.names.LinkId.{LinkId};
ghost use Rattle.mx_wire.specs.Log.{link_of};
ghost use Rattle.recording.specs.Arrivals.{place_if};
ghost use Rattle.recording.specs.Places.{places_of};

use mx_base::{LinkId, OutOfMemory};
use mx_wire::Entry;
use std::alloc::Global;
use std::collections::HashMap;

/// The places of each link's entries in a log, in order.
#[derive(Drop)]
pub(crate) struct Places {
    pub(crate) by_link: HashMap<u64, Vec<usize>>,
}

impl Places {
    pub(crate) fn new(alloc: Global) -> Self
        ensures { (link : LinkId) → places_of result link ≡ [] }
    {
        Places {
            by_link: HashMap::new(alloc),
        }
    }

    /// Adds the place of an entry to those of its link, if it names one.
    pub(crate) fn note(
        &mut self,
        alloc: Global,
        entry: &Entry,
        place: usize,
    ) -> Result<(), OutOfMemory>
        ensures { OnOk result ((link : LinkId) →
            places_of self.new link ≡ places_of self.old link ++ place_if link entry.now place) }
    {
        match named_link(entry) {
            Some(link) => self.add(alloc, link, place),
            None => Ok(()),
        }
    }

    fn add(&mut self, alloc: Global, link: LinkId, place: usize) -> Result<(), OutOfMemory>
        ensures same { OnOk result (places_of self.new link ≡ places_of self.old link ++ place ∷ []) }
        ensures others { OnOk result ((other : LinkId) → nat_eq link.0 other.0 ≡ false →
            places_of self.new other ≡ places_of self.old other) }
    {
        if let Some(places) = self.by_link.get_mut(&link.0) {
            places.push(place)?;
            return Ok(());
        }
        let mut places = Vec::new(alloc);
        places.push(place)?;
        self.by_link.insert(link.0, places)?;
        Ok(())
    }

    /// The places of the link's entries.
    pub(crate) fn of(&self, link: LinkId) -> &[usize]
        ensures { result.now ≡ places_of self.now link }
    {
        match self.by_link.get(&link.0) {
            Some(places) => places.as_slice(),
            None => &[],
        }
    }
}

// The link that the entry names.
fn named_link(entry: &Entry) -> Option<LinkId>
    ensures { result ≡ link_of entry.now }
{
    match entry {
        Entry::Named { link }
        | Entry::Accepted { link, .. }
        | Entry::Opened { link, .. }
        | Entry::Got { link, .. }
        | Entry::ReadNothing { link }
        | Entry::Ended { link }
        | Entry::ReadFailed { link }
        | Entry::Wrote { link, .. }
        | Entry::WriteNothing { link }
        | Entry::WriteFailed { link }
        | Entry::Closed { link }
        | Entry::Exec { link }
        | Entry::Drop { link } => Some(*link),
        Entry::Listening { .. }
        | Entry::ListenFailed { .. }
        | Entry::Woke { .. }
        | Entry::WaitFailed
        | Entry::Over
        | Entry::NoneNamed
        | Entry::AcceptNothing { .. }
        | Entry::AcceptFailed { .. }
        | Entry::OpenFailed { .. } => None,
    }
}
