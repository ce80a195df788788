// Slots by age.
ghost use Rattle.std.specs.Prelude.{◌≡◌, ◌+◌, ◌^◌, ◌<◌, ℕ, false, true, List, [], length, IfOk, IfSome, Some, replicate, slice_get, slice_index};
ghost use Rattle.slot_lists.specs.Orders.{IsApart, before, has, last, placed};
ghost use Rattle.slots_by_age.specs.Aged.{IsNone, of_kind, put, taken};

use mx_base::OutOfMemory;
use slot_lists::SlotLists;
use std::alloc::Global;
use std::marker::Model;

/// Slots that are kept, each of a kind since a moment, in memory that is taken once. Each call takes one step, but for a `put` of a
/// moment before the newest: it goes by the newer ones.
#[derive(Drop)]
pub struct SlotsByAge {
    all: SlotLists,
    kinds: SlotLists,
    since: Vec<u64>,
    kept: Vec<bool>,
    counts: Vec<u32>,
    total: u32,
}

impl Model for SlotsByAge {
    ghost use Rattle.slot_lists.specs.Chains.{order_in};
    ghost use Rattle.slots_by_age.specs.Aged.{Aged};
    ghost use Rattle.slots_by_age.specs.Tables.{AreTables};

    ghost Value = { Aged };

    ghost view = { λ s. record {
      order = order_in s.all;
      kind_of = s.kinds.list_of;
      since = s.since.items;
      slots = s.all.slots;
      kinds = s.kinds.lists;
    } };

    ghost invariant = { λ s. AreTables s.all s.kinds s.since.items s.kept.items s.counts.items s.total };
}

impl SlotsByAge {
    /// None of so many slots, of so many kinds.
    pub fn new(alloc: Global, slots: u32, kinds: u32) -> Result<Self, OutOfMemory>
        requires slots { slots + 1 < 2 ^ 32 }
        requires kinds { slots + kinds < 2 ^ 32 }
        requires some { 0 < kinds }
        ensures { IfOk result (λ all. IsNone all slots kinds) }
    {
        Ok(SlotsByAge {
            all: SlotLists::new(alloc, slots, 1)?,
            kinds: SlotLists::new(alloc, slots, kinds)?,
            since: vec![in alloc; 0; slots as usize]?,
            kept: vec![in alloc; false; slots as usize]?,
            counts: vec![in alloc; 0; kinds as usize]?,
            total: 0,
        })
    }

    /// Whether a slot is kept.
    pub fn has(&self, slot: u32) -> bool
        requires { slot < self.now.slots }
        ensures { result ≡ has slot self.now.order }
    {
        self.kept[slot as usize]
    }

    /// The kind that a slot is or was last of.
    pub fn kind(&self, slot: u32) -> u32
        requires { slot < self.now.slots }
        ensures is { result ≡ slice_index self.now.kind_of slot }
        ensures within { result < self.now.kinds }
    {
        self.kinds.list(slot)
    }

    /// The moment since which a slot is kept, or was last.
    pub fn since(&self, slot: u32) -> u64
        requires { slot < self.now.slots }
        ensures { result ≡ slice_index self.now.since slot }
    {
        self.since[slot as usize]
    }

    /// How many slots are kept.
    pub fn len(&self) -> u32
        ensures { result ≡ length self.now.order }
    {
        self.total
    }

    /// How many slots of a kind are kept.
    pub fn count(&self, kind: u32) -> u32
        requires { kind < self.now.kinds }
        ensures { result ≡ length (of_kind self.now kind) }
    {
        self.counts[kind as usize]
    }

    /// How many slots of each kind are kept.
    pub fn counts(&self) -> &[u32]
        ensures length { length result.now ≡ self.now.kinds }
        ensures counts { (kind : ℕ) → kind < self.now.kinds → slice_index result.now kind ≡ length (of_kind self.now kind) }
    {
        &self.counts
    }

    /// The newest slot of a kind.
    pub fn newest(&self, kind: u32) -> Option<u32>
        requires { kind < self.now.kinds }
        ensures is { result ≡ slice_get (of_kind self.now kind) 0 }
        ensures within { IfSome result (λ slot. slot < self.now.slots) }
    {
        self.kinds.newest(kind)
    }

    /// The oldest slot of a kind.
    pub fn oldest(&self, kind: u32) -> Option<u32>
        requires { kind < self.now.kinds }
        ensures is { result ≡ last (of_kind self.now kind) }
        ensures within { IfSome result (λ slot. slot < self.now.slots) }
    {
        self.kinds.oldest(kind)
    }

    /// The oldest slot of all.
    pub fn oldest_of_all(&self) -> Option<u32>
        ensures is { result ≡ last self.now.order }
        ensures within { IfSome result (λ slot. slot < self.now.slots) }
    {
        self.all.oldest(0)
    }

    /// The slot that is next in age: the oldest of those that are newer than this one.
    pub fn newer(&self, slot: u32) -> Option<u32>
        requires { slot < self.now.slots }
        ensures is { (at : ℕ) → slice_get self.now.order at ≡ Some slot → result ≡ before self.now.order at }
        ensures within { IfSome result (λ slot. slot < self.now.slots) }
    {
        self.all.newer(slot)
    }

    /// Keeps a slot from a moment on, whether or not it was kept before.
    pub fn put(&mut self, slot: u32, kind: u32, moment: u64)
        requires slot { slot < self.old.slots }
        requires kind { kind < self.old.kinds }
        ensures { self.new ≡ put self.old slot kind moment }
    {
        self.take(slot);
        self.add(slot, kind, moment);
    }

    /// Keeps a slot no more; nothing changes where it wasn't kept.
    pub fn take(&mut self, slot: u32)
        requires { slot < self.old.slots }
        ensures { self.new ≡ taken self.old slot }
    {
        if self.kept[slot as usize] {
            self.all.remove(slot);
            self.kinds.remove(slot);
            self.kept[slot as usize] = false;
            let kind = self.kinds.list(slot);
            self.counts[kind as usize] -= 1;
            self.total -= 1;
        }
    }

    fn add(&mut self, slot: u32, kind: u32, moment: u64)
        requires slot { slot < self.old.slots }
        requires kind { kind < self.old.kinds }
        requires new { has slot self.old.order ≡ false }
        ensures { self.new ≡ put self.old slot kind moment }
    {
        self.since[slot as usize] = moment;
        self.all.insert(0, slot, &self.since);
        self.kinds.insert(kind, slot, &self.since);
        self.kept[slot as usize] = true;
        self.counts[kind as usize] += 1;
        self.total += 1;
    }
}
