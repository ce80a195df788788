// Slots by age.
ghost use Rattle.std.specs.Prelude.{◌+◌, ◌^◌, ◌<◌};

use mx_base::OutOfMemory;
use slots_by_age::SlotsByAge;
use std::alloc::Global;
use std::marker::Model;

/// Slots that are kept, each of a kind since a moment, in memory that is taken once. A slot or a kind beyond those that there are is never
/// kept.
#[derive(Drop)]
pub struct Ages {
    aged: SlotsByAge,
    slots: u32,
    kinds: u32,
}

impl Model for Ages {
    ghost use Rattle.slots_by_age.specs.Aged.{Aged};
    ghost use Rattle.core_pool.specs.Sized.{IsOf};

    ghost Value = { Aged };

    ghost view = { λ a. a.aged };

    ghost invariant = { λ a. IsOf a.aged a.slots a.kinds };
}

impl Ages {
    /// None of so many slots, of so many kinds.
    pub fn new(alloc: Global, slots: u32, kinds: u32) -> Result<Self, OutOfMemory>
        requires slots { slots + 1 < 2 ^ 32 }
        requires kinds { slots + kinds < 2 ^ 32 }
        requires some { 0 < kinds }
    {
        Ok(Ages {
            aged: SlotsByAge::new(alloc, slots, kinds)?,
            slots,
            kinds,
        })
    }

    /// Keeps a slot from a moment on. Takes no memory.
    pub fn put(&mut self, slot: u32, kind: u32, moment: u64) {
        if slot < self.slots && kind < self.kinds {
            self.aged.put(slot, kind, moment);
        }
    }

    /// Keeps a slot no more. Takes no memory.
    pub fn take(&mut self, slot: u32) {
        if slot < self.slots {
            self.aged.take(slot);
        }
    }

    /// Takes out the oldest of all. Takes no memory.
    pub fn pop(&mut self) -> Option<u32> {
        let slot = self.aged.oldest_of_all()?;
        self.aged.take(slot);
        Some(slot)
    }

    /// The moment since which a slot is kept, or was last.
    pub fn since(&self, slot: u32) -> u64 {
        if slot < self.slots {
            self.aged.since(slot)
        } else {
            0
        }
    }

    /// Whether none is kept.
    pub fn is_empty(&self) -> bool {
        self.aged.len() == 0
    }

    /// How many slots of a kind are kept.
    pub fn count(&self, kind: u32) -> u32 {
        if kind < self.kinds {
            self.aged.count(kind)
        } else {
            0
        }
    }

    /// The oldest slot of a kind.
    pub fn oldest(&self, kind: u32) -> Option<u32> {
        if kind < self.kinds {
            self.aged.oldest(kind)
        } else {
            None
        }
    }

    /// The oldest slot of all.
    pub fn oldest_of_all(&self) -> Option<u32> {
        self.aged.oldest_of_all()
    }
}
