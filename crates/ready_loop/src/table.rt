// What the loop knows, and which call of the wire it owes.
ghost use Rattle.std.specs.Prelude.{◌≡◌, ◌∷◌, drop, true, IfSome, IfNone, Some};
ghost use Rattle.mx_base.specs.declared.names.LinkId.{LinkId};
ghost use Rattle.ready_loop.specs.Links.{dry_of, mark_of};
ghost use Rattle.ready_loop.specs.Queued.{Watches, IsSettled};
ghost use Rattle.ready_loop.specs.Serving.{IsAsked, IsDone, IsOwed};
ghost use Rattle.ready_loop.specs.declared.links.Mark.{Mark};

use crate::Machine;
use crate::links::Links;
use crate::round::Round;
use mx_base::{LinkId, Port};

/// What the loop knows of its links, and of the calls since the last wake.
#[derive(Drop)]
pub struct Table {
    pub links: Links,
    pub round: Round,
}

/// A call of the wire that is owed before the loop may wait.
#[derive(Clone, Copy)]
pub enum Call {
    Accept { port: Port },
    Name,
    Read { link: LinkId },
    Write { link: LinkId },
}

impl Table {
    /// The call that is owed next: ports first, then names, then the link at the front of the queue. Links of which
    /// none is owed leave the queue.
    pub fn owed<M: Machine>(&mut self, core: &M) -> Option<Call>
        requires watches { Watches (M.reads core.now) (M.sends core.now) (M.changed core.now) self.old.links }
        ensures watches { Watches (M.reads core.now) (M.sends core.now) (M.changed core.now) self.new.links }
        ensures dry { (link : LinkId) → dry_of self.new.links link ≡ dry_of self.old.links link }
        ensures round { self.new.round ≡ self.old.round }
        ensures call { IfSome result (IsOwed (M.reads core.now) (M.sends core.now) self.new) }
        ensures done { IfNone result (IsDone (M.reads core.now) (M.sends core.now) (M.changed core.now) self.new) }
    {
        if !self.round.traffic {
            return Some(Call::Accept {
                port: Port::Traffic,
            });
        }
        if !self.round.admin {
            return Some(Call::Accept { port: Port::Admin });
        }
        if !self.round.named {
            return Some(Call::Name);
        }
        self.owed_in_queue(core)
    }

    fn owed_in_queue<M: Machine>(&mut self, core: &M) -> Option<Call>
        requires asked { IsAsked self.old.round }
        requires watches { Watches (M.reads core.now) (M.sends core.now) (M.changed core.now) self.old.links }
        ensures watches { Watches (M.reads core.now) (M.sends core.now) (M.changed core.now) self.new.links }
        ensures dry { (link : LinkId) → dry_of self.new.links link ≡ dry_of self.old.links link }
        ensures round { self.new.round ≡ self.old.round }
        ensures call { IfSome result (IsOwed (M.reads core.now) (M.sends core.now) self.new) }
        ensures done { IfNone result (IsDone (M.reads core.now) (M.sends core.now) (M.changed core.now) self.new) }
    {
        while let Some(link) = self.links.front() {
            if let Some(call) = self.owed_on(core, link) {
                return Some(call);
            }
            self.links.leave(link);
        }
        None
    }

    // A call of the link at the front.
    fn owed_on<M: Machine>(&self, core: &M, link: LinkId) -> Option<Call>
        requires asked { IsAsked self.now.round }
        requires first { self.now.links.queue.items ≡ link ∷ drop 1 self.now.links.queue.items }
        ensures call { IfSome result (IsOwed (M.reads core.now) (M.sends core.now) self.now) }
        ensures settled { IfNone result ((mark : Mark) → mark_of self.now.links link ≡ Some mark → mark.queued ≡ true → IsSettled (M.reads core.now link) (M.sends core.now link) mark) }
    {
        let Some(mark) = self.links.marks.get(&link.0) else {
            return None;
        };
        if !mark.queued {
            return None;
        }
        if !mark.read && core.wants_read(link) {
            return Some(Call::Read { link });
        }
        if !mark.write && core.outgoing(link).is_some() {
            return Some(Call::Write { link });
        }
        None
    }
}
