// The links of a recording that have ended.
ghost use Rattle.std.specs.Prelude.{◌≡◌, ◌||◌, OnOk, false};
ghost use Rattle.recording.specs.Ended.{is_in};
ghost use Rattle.recording.specs.Recording.{same_link};
ghost use Rattle.recording.specs.declared.entry.RecordLink.{RecordLink};

use crate::RecordLink;
use mx_base::OutOfMemory;
use std::alloc::Global;
use std::collections::HashSet;

/// The links on which `end` or `fail` stood, by their numbers.
#[derive(Drop)]
pub(crate) struct EndedLinks {
    pub(crate) clients: HashSet<u16>,
    pub(crate) servers: HashSet<u16>,
}

impl EndedLinks {
    pub(crate) fn new(alloc: Global) -> Self
        ensures { (link : RecordLink) → is_in result link ≡ false }
    {
        EndedLinks {
            clients: HashSet::new(alloc),
            servers: HashSet::new(alloc),
        }
    }

    pub(crate) fn has(&self, link: RecordLink) -> bool
        ensures { result ≡ is_in self.now link }
    {
        match link {
            RecordLink::Client(n) => self.clients.contains(&n),
            RecordLink::Server(k) => self.servers.contains(&k),
        }
    }

    pub(crate) fn add(&mut self, link: RecordLink) -> Result<(), OutOfMemory>
        ensures { OnOk result ((other : RecordLink) →
            is_in self.new other ≡ (same_link link other || is_in self.old other)) }
    {
        match link {
            RecordLink::Client(n) => self.clients.insert(n)?,
            RecordLink::Server(k) => self.servers.insert(k)?,
        };
        Ok(())
    }
}
