// The log that a wire in memory tells.
ghost use Rattle.std.specs.Prelude.{◌≡◌, Some, None, [], IfSome, is_some, length, not, option_map};
ghost use Rattle.mx_wire.specs.Adds.{AddsIf, AddsOne};
ghost use Rattle.mx_wire.specs.Answers.{ReadsAtMost, got_entry};

use crate::{Entry, Got};
use mx_base::{Bytes, LinkId};
use std::alloc::Global;
use std::marker::Model;

/// A log that is told until there is no memory for an entry, or until it would have 2^48 entries. A contract sees the entries, where
/// they are told.
#[derive(Drop)]
pub struct ToldLog {
    entries: Vec<Entry>,
    untold: bool,
}

impl Model for ToldLog {
    ghost use Rattle.std.specs.Prelude.{◌<◌, Option, Some, None, if◌then◌else◌, length};
    ghost use Rattle.mx_wire.specs.Log.{Log};

    ghost Value = { Option Log };

    ghost view = { λ t. if t.untold then None else Some t.entries.items };

    ghost invariant = { λ t. length t.entries.items < 281474976710656 };
}

impl ToldLog {
    /// No entries. Takes no memory.
    pub fn new(alloc: Global) -> Self
        ensures { result ≡ Some [] }
    {
        ToldLog {
            entries: Vec::new(alloc),
            untold: false,
        }
    }

    /// The entries, where they are told.
    pub fn told(&self) -> Option<&[Entry]>
        ensures { option_map (λ entries. entries.now) result ≡ self.now }
    {
        if self.untold {
            return None;
        }
        Some(&self.entries)
    }

    /// Whether the log is told no more.
    pub fn is_stopped(&self) -> bool
        ensures { result ≡ not (is_some self.now) }
    {
        self.untold
    }

    /// Adds an entry behind the others, or tells the log no more.
    pub fn add(&mut self, entry: Entry)
        ensures { AddsOne self.old entry self.new }
    {
        if self.entries.len() >= 281_474_976_710_655 {
            self.untold = true;
        } else if self.entries.push(entry).is_err() {
            self.untold = true;
        }
    }

    /// Adds an entry where there was memory for it, or tells the log no more.
    pub fn add_if(&mut self, entry: Option<Entry>)
        ensures { AddsIf self.old entry self.new }
    {
        match entry {
            Some(entry) => self.add(entry),
            None => self.stop(),
        }
    }

    /// Tells the log no more.
    pub fn stop(&mut self)
        ensures { self.new ≡ None }
    {
        self.untold = true;
    }
}

/// The entry of a read, where there is memory for it.
pub fn read_entry(alloc: Global, link: LinkId, got: Got, into: &[u8]) -> Option<Entry>
    requires { ReadsAtMost (length into.now) got }
    ensures { IfSome result (λ e. e ≡ got_entry link into.now got) }
{
    Some(match got {
        Got::Got { n } => {
            let bytes = Bytes::from_slice(alloc, &into[..n]).ok()?;
            Entry::Got { link, bytes }
        }
        Got::NotReady => Entry::ReadNothing { link },
        Got::End => Entry::Ended { link },
        Got::Failed => Entry::ReadFailed { link },
    })
}
