// The statements that are prepared on a link.
ghost use Rattle.std.specs.Prelude.{◌≡◌, ◌||◌, ℕ, [], is_some, length, not, nat_eq, slice_get, OnOk};
ghost use Rattle.std.specs.HashSet.{contains};
ghost use Rattle.link_state.specs.Stood.{closed, number_of, stood};

use indexmap::IndexMap;
use mx_base::OutOfMemory;
use std::alloc::Global;
use std::collections::HashSet;
use std::marker::Model;

/// The statements that are prepared on a link to a server, the oldest first, as keys of texts with the numbers that the server gave. A
/// contract sees the list of these.
#[derive(Drop)]
pub struct Standing {
    numbers: IndexMap<u64, u32>,
}

impl Model for Standing {
    ghost use Rattle.std.specs.Prelude.{List, ℕ};

    ghost Value = { List (ℕ × ℕ) };

    ghost view = { λ s. s.numbers.entries };
}

impl Standing {
    /// None yet. Takes no memory.
    pub fn new(alloc: Global) -> Self
        ensures { result ≡ [] }
    {
        Standing {
            numbers: IndexMap::new(alloc),
        }
    }

    /// How many there are.
    pub fn len(&self) -> usize
        ensures { result ≡ length self.now }
    {
        self.numbers.len()
    }

    /// The number of a key's text.
    pub fn find(&self, key: u64) -> Option<u32>
        ensures { result ≡ number_of self.now key }
    {
        self.numbers.get(&key).copied()
    }

    /// The keys are put into a set.
    pub fn add_keys(&self, all: &mut HashSet<u64>) -> Result<(), OutOfMemory>
        ensures { OnOk result ((key : ℕ) → contains nat_eq all.new key ≡ (contains nat_eq all.old key || is_some (number_of self.now key))) }
    {
        for key in self.numbers.keys() {
            all.insert(*key)?;
        }
        Ok(())
    }

    /// The oldest, with its number.
    pub fn oldest(&self) -> Option<(u64, u32)>
        ensures { result ≡ slice_get self.now 0 }
    {
        let (key, number) = self.numbers.first()?;
        Some((*key, *number))
    }

    /// A key's text was prepared and got this number.
    pub fn put(&mut self, key: u64, number: u32) -> Result<(), OutOfMemory>
        ensures { OnOk result (self.new ≡ stood self.old key number) }
    {
        match self.numbers.insert(key, number) {
            Ok(_) => Ok(()),
            Err(_) => Err(OutOfMemory),
        }
    }

    /// What has this number was closed.
    pub fn close(&mut self, number: u32)
        ensures { self.new ≡ closed self.old number }
    {
        self.numbers.retain(
            |_key: &u64, at: &mut u32| -> bool
                ensures { (result ≡ not (nat_eq at.old number)) × (at.new ≡ at.old) }
            { *at != number },
        );
    }

    /// The link was reset: none is prepared any more.
    pub fn clear(&mut self)
        ensures { self.new ≡ [] }
    {
        self.numbers.clear();
    }
}
