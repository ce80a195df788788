// The open links, and those that are to be looked at.
ghost use Rattle.std.specs.Prelude.{◌≡◌, ◌≤◌, ◌++◌, ◌∷◌, [], drop, false, true, IfOk, OnOk, IfSome, IfNone, None, Some, if◌then◌else◌};
ghost use Rattle.std.specs.HashMap.{spare};
ghost use Rattle.std.specs.Option.{option_map};
ghost use Rattle.std.specs.VecDeque.{deque_capacity};
ghost use Rattle.mx_base.specs.declared.names.LinkId.{LinkId};
ghost use Rattle.ready_loop.specs.Links.{Marks, mark_of, queue_with};
ghost use Rattle.ready_loop.specs.declared.links.Mark.{Mark};

use mx_base::{LinkId, OutOfMemory};
use std::alloc::Global;
use std::collections::{HashMap, VecDeque};

/// What the loop knows of an open link.
#[derive(Clone, Copy)]
pub struct Mark {
    /// The last read since the link was last named found nothing.
    pub read: bool,
    /// The last write since then found no room.
    pub write: bool,
    /// The link is in the queue.
    pub queued: bool,
}

/// The open links, and a queue of those that are to be looked at. A link that closed may still stand in the queue.
#[derive(Drop)]
pub struct Links {
    pub marks: HashMap<u64, Mark>,
    pub queue: VecDeque<LinkId>,
}

impl Links {
    /// No links, with room for so many.
    pub fn with_room(alloc: Global, most: u32) -> Result<Self, OutOfMemory>
        ensures links { IfOk result (λ links. (link : LinkId) → mark_of links link ≡ None) }
        ensures queue { IfOk result (λ links. links.queue.items ≡ []) }
        ensures room { IfOk result (λ links. most ≤ spare links.marks) }
        ensures places { IfOk result (λ links. most ≤ deque_capacity links.queue) }
    {
        Ok(Links {
            marks: HashMap::with_capacity(alloc, most as usize)?,
            queue: VecDeque::with_capacity(alloc, most as usize)?,
        })
    }

    /// A link is open. It goes to the end of the queue.
    pub fn opened(&mut self, link: LinkId) -> Result<(), OutOfMemory>
        ensures marks { OnOk result (Marks self.old self.new link (Some (record { read = false; write = false; queued = true }))) }
        ensures queue { OnOk result (self.new.queue.items ≡ self.old.queue.items ++ link ∷ []) }
    {
        let mark = Mark {
            read: false,
            write: false,
            queued: true,
        };
        self.marks.insert(link.0, mark)?;
        self.queue.push_back(link)?;
        Ok(())
    }

    /// A link is closed.
    pub fn closed(&mut self, link: LinkId)
        ensures marks { Marks self.old self.new link None }
        ensures queue { self.new.queue.items ≡ self.old.queue.items }
    {
        let _ = self.marks.remove(&link.0);
    }

    /// A link was named: it may have something new. It goes to the end of the queue, where it isn't in it.
    pub fn named(&mut self, link: LinkId) -> Result<(), OutOfMemory>
        ensures marks { OnOk result (Marks self.old self.new link (option_map (λ (mark : Mark). record { read = false; write = false; queued = true }) (mark_of self.old link))) }
        ensures queue { OnOk result (self.new.queue.items ≡ queue_with (mark_of self.old link) self.old.queue.items link) }
    {
        let Some(mark) = self.marks.get_mut(&link.0) else {
            return Ok(());
        };
        let was = mark.queued;
        *mark = Mark {
            read: false,
            write: false,
            queued: true,
        };
        self.push_unless(was, link)
    }

    /// A link is to be looked at. It goes to the end of the queue, where it isn't in it.
    pub fn enqueue(&mut self, link: LinkId) -> Result<(), OutOfMemory>
        ensures marks { OnOk result (Marks self.old self.new link (option_map (λ (mark : Mark). record mark { queued = true }) (mark_of self.old link))) }
        ensures queue { OnOk result (self.new.queue.items ≡ queue_with (mark_of self.old link) self.old.queue.items link) }
    {
        let Some(mark) = self.marks.get_mut(&link.0) else {
            return Ok(());
        };
        let was = mark.queued;
        mark.queued = true;
        self.push_unless(was, link)
    }

    fn push_unless(&mut self, was: bool, link: LinkId) -> Result<(), OutOfMemory>
        ensures marks { OnOk result (self.new.marks ≡ self.old.marks) }
        ensures queue { OnOk result (self.new.queue.items ≡ (if was then self.old.queue.items else self.old.queue.items ++ link ∷ [])) }
    {
        if !was {
            self.queue.push_back(link)?;
        }
        Ok(())
    }

    /// A read of the link found nothing.
    pub fn read_dry(&mut self, link: LinkId)
        ensures marks { Marks self.old self.new link (option_map (λ (mark : Mark). record mark { read = true }) (mark_of self.old link)) }
        ensures queue { self.new.queue.items ≡ self.old.queue.items }
    {
        if let Some(mark) = self.marks.get_mut(&link.0) {
            mark.read = true;
        }
    }

    /// A write on the link found no room.
    pub fn write_dry(&mut self, link: LinkId)
        ensures marks { Marks self.old self.new link (option_map (λ (mark : Mark). record mark { write = true }) (mark_of self.old link)) }
        ensures queue { self.new.queue.items ≡ self.old.queue.items }
    {
        if let Some(mark) = self.marks.get_mut(&link.0) {
            mark.write = true;
        }
    }

    /// The link at the front of the queue.
    pub fn front(&self) -> Option<LinkId>
        ensures some { IfSome result (λ link. self.now.queue.items ≡ link ∷ drop 1 self.now.queue.items) }
        ensures none { IfNone result (self.now.queue.items ≡ []) }
    {
        self.queue.front().copied()
    }

    /// Takes a link from the front of the queue.
    pub fn leave(&mut self, link: LinkId)
        ensures marks { Marks self.old self.new link (option_map (λ (mark : Mark). record mark { queued = false }) (mark_of self.old link)) }
        ensures queue { self.new.queue.items ≡ drop 1 self.old.queue.items }
    {
        let _ = self.queue.pop_front();
        if let Some(mark) = self.marks.get_mut(&link.0) {
            mark.queued = false;
        }
    }
}
