// Links that are marked.
ghost use Rattle.std.specs.Prelude.{◌≡◌, ◌+◌, ◌^◌, ◌<◌, ◌||◌, ◌&&◌, ℕ, false, length, nat_eq, IfOk, IfNone, IsSome, OnOk, Some};
ghost use Rattle.mx_base.specs.declared.names.LinkId.{LinkId};
ghost use Rattle.slot_lists.specs.Orders.{has};
ghost use Rattle.link_marks.specs.Marks.{IsNamed, is_known, is_link, is_marked, number_of};

use mx_base::{LinkId, OutOfMemory};
use number_table::NumberTable;
use slots_by_age::SlotsByAge;
use std::alloc::Global;
use std::marker::Model;

/// The links that are open, and those of them that are marked, the oldest mark first.
#[derive(Drop)]
pub struct Marks {
    names: NumberTable<u64>,
    marked: SlotsByAge,
    most: u32,
}

impl Model for Marks {
    ghost use Rattle.std.specs.Prelude.{◌≡◌};
    ghost use Rattle.link_marks.specs.Marks.{AreSized, Marked};

    ghost Value = { Marked };

    ghost view = { λ m. record { names = m.names; marked = m.marked } };

    ghost invariant = { λ m. AreSized m.names m.marked m.most };
}

impl Marks {
    /// No link is open. There may be so many.
    pub fn new(alloc: Global, most: u32) -> Result<Self, OutOfMemory>
        requires { most + 2 < 2 ^ 32 }
        ensures { IfOk result (λ marks. (link : LinkId) → is_known marks link ≡ false) }
    {
        Ok(Marks {
            names: NumberTable::new(alloc, most),
            marked: SlotsByAge::new(alloc, most, 1)?,
            most,
        })
    }

    /// Whether a link is open. Takes no memory.
    pub fn knows(&self, link: LinkId) -> bool
        ensures { result ≡ is_known self.now link }
    {
        self.names.find(&link.0).is_some()
    }

    /// A link that is open is marked. Takes no memory.
    pub fn mark(&mut self, link: LinkId)
        ensures known { (other : LinkId) → is_known self.new other ≡ is_known self.old other }
        ensures marked { (other : LinkId) → is_marked self.new other ≡ ((is_link link other && is_known self.old link) || is_marked self.old other) }
    {
        self.names.numbered();
        if let Some(slot) = self.names.find(&link.0) {
            keep(&mut self.marked, slot);
        }
    }

    /// A link is opened, and marked.
    pub fn comes(&mut self, link: LinkId) -> Result<(), OutOfMemory>
        ensures known { OnOk result ((other : LinkId) → is_known self.new other ≡ (is_link link other || is_known self.old other)) }
        ensures marked { OnOk result ((other : LinkId) → is_marked self.new other ≡ (is_link link other || is_marked self.old other)) }
    {
        let Ok(slot) = self.names.take(link.0) else {
            return Err(OutOfMemory);
        };
        self.names.numbered();
        self.marked.put(slot, 0, 0);
        Ok(())
    }

    // The link of a number.
    fn name(&self, number: u32) -> LinkId
        ensures { (link : LinkId) → number_of self.now link ≡ Some number → result ≡ link }
    {
        self.names.numbered();
        match self.names.key(number) {
            Some(name) => LinkId(*name),
            None => LinkId(0),
        }
    }

    /// The oldest mark is taken off a link. Takes no memory.
    pub fn next(&mut self) -> Option<LinkId>
        ensures known { (other : LinkId) → is_known self.new other ≡ is_known self.old other }
        ensures named { IsNamed result self.old self.new }
        ensures none { IfNone result ((link : LinkId) → is_marked self.old link ≡ false) }
        ensures fewer { IsSome result → length self.new.marked.order < length self.old.marked.order }
    {
        let Some(number) = self.marked.oldest_of_all() else {
            return None;
        };
        let link = self.name(number);
        self.marked.take(number);
        Some(link)
    }

    /// A link isn't open any more. Takes no memory.
    pub fn leaves(&mut self, link: LinkId)
        ensures known { (other : LinkId) → is_link link other ≡ false → is_known self.new other ≡ is_known self.old other }
        ensures marked { (other : LinkId) → is_link link other ≡ false → is_marked self.new other ≡ is_marked self.old other }
    {
        self.names.numbered();
        if let Some(slot) = self.names.find(&link.0) {
            self.marked.take(slot);
            self.names.leave(slot);
        }
    }
}

// A slot is kept, in its place where it was before.
#[tactic(auto, using(crate::proofs::Marking::has_again, crate::proofs::Marking::has_first))]
fn keep(marked: &mut SlotsByAge, slot: u32)
    requires slot { slot < marked.old.slots }
    requires kinds { 0 < marked.old.kinds }
    ensures kept { (other : ℕ) → has other marked.new.order ≡ (nat_eq slot other || has other marked.old.order) }
    ensures slots { marked.new.slots ≡ marked.old.slots }
    ensures kinds { marked.new.kinds ≡ marked.old.kinds }
{
    if !marked.has(slot) {
        marked.put(slot, 0, 0);
    }
}
