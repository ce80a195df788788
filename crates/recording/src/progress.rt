// What the lines so far leave for the lines behind them.
ghost use Rattle.std.specs.Prelude.{◌≡◌, OnOk};
ghost use Rattle.recording.specs.Ended.{standing_of};
ghost use Rattle.recording.specs.Recording.{nothing_yet, misplaced, names_wrong_link, is_known, after};

use crate::ended::EndedLinks;
use crate::fault::Kind;
use crate::{RecordEntry, RecordLink};
use mx_base::OutOfMemory;
use std::alloc::Global;

/// The moment of the last `at`, how many clients were accepted, and which links have ended.
#[derive(Drop)]
pub(crate) struct Progress {
    pub(crate) moment: Option<u64>,
    pub(crate) clients: u16,
    pub(crate) ended: EndedLinks,
}

impl Progress {
    pub(crate) fn new(alloc: Global) -> Self
        ensures { standing_of result ≡ nothing_yet }
    {
        Progress {
            moment: None,
            clients: 0,
            ended: EndedLinks::new(alloc),
        }
    }

    /// What is wrong with the place of the entry among the lines before it.
    #[tactic(auto, unfolding(crate::specs::Recording::misplaced))]
    pub(crate) fn misplaced(&self, entry: &RecordEntry) -> Option<Kind>
        ensures { result ≡ misplaced (standing_of self.now) entry.now }
    {
        if let RecordEntry::At { ms } = entry {
            return match self.moment {
                Some(last) if *ms < last => Some(Kind::MomentFell),
                _ => None,
            };
        }
        if self.moment.is_none() {
            return Some(Kind::BeforeFirstAt);
        }
        if self.names_wrong_link(entry) {
            Some(Kind::WrongLink)
        } else {
            None
        }
    }

    fn names_wrong_link(&self, entry: &RecordEntry) -> bool
        ensures { result ≡ names_wrong_link (standing_of self.now) entry.now }
    {
        match entry {
            RecordEntry::Accept { n, .. } => u32::from(*n) != u32::from(self.clients) + 1,
            RecordEntry::Bytes { link, .. }
            | RecordEntry::End { link }
            | RecordEntry::Fail { link } => !self.is_known(link) || self.ended.has(*link),
            RecordEntry::Take { link, .. } => !self.is_known(link),
            _ => false,
        }
    }

    fn is_known(&self, link: &RecordLink) -> bool
        ensures { result ≡ is_known (standing_of self.now) link.now }
    {
        match link {
            RecordLink::Client(n) => *n <= self.clients,
            RecordLink::Server(_) => true,
        }
    }

    /// Goes on behind a line with this entry.
    #[tactic(auto, unfolding(crate::specs::Recording::after))]
    pub(crate) fn take(&mut self, entry: &RecordEntry) -> Result<(), OutOfMemory>
        ensures { OnOk result (standing_of self.new ≡ after (standing_of self.old) entry.now) }
    {
        match entry {
            RecordEntry::At { ms } => self.moment = Some(*ms),
            RecordEntry::Accept { n, .. } => self.clients = *n,
            RecordEntry::End { link } | RecordEntry::Fail { link } => self.ended.add(*link)?,
            _ => {}
        }
        Ok(())
    }
}
