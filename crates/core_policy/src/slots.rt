// Small numbers for links and clients, as the pool has them.

use mx_base::OutOfMemory;
use number_table::{NumberTable, TakeFault};
use std::alloc::Global;

/// Small numbers for the names of links or clients, each of which has one while it is held.
#[derive(Drop)]
pub struct Slots {
    names: NumberTable<u64>,
}

/// The number that was taken, where there was one more.
pub(crate) fn number_of(taken: Result<u32, TakeFault>) -> Result<Option<u32>, OutOfMemory> {
    match taken {
        Ok(number) => Ok(Some(number)),
        Err(TakeFault::Full) => Ok(None),
        Err(TakeFault::OutOfMemory) => Err(OutOfMemory),
    }
}

impl Slots {
    /// None yet. There may be so many.
    pub fn new(alloc: Global, most: u32) -> Self {
        Slots {
            names: NumberTable::new(alloc, most),
        }
    }

    /// A name gets a number, where there is one more.
    pub fn take(&mut self, name: u64) -> Result<Option<u32>, OutOfMemory> {
        number_of(self.names.take(name))
    }

    pub fn name(&self, slot: u32) -> Option<u64> {
        self.names.key(slot).copied()
    }

    /// It has it no more.
    pub fn leave(&mut self, slot: u32) {
        self.names.leave(slot);
    }
}
