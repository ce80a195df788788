// The statements that are prepared on a link.
ghost use Rattle.std.specs.Prelude.{◌≡◌, [], length, not, ◌||◌, nat_eq, slice_get, OnOk};
ghost use Rattle.indexmap.specs.IndexMap.{shift_remove_entry};
ghost use Rattle.stmt_map.specs.Link.{added, number_of, prepared};

use indexmap::IndexMap;
use mx_base::OutOfMemory;
use std::alloc::Global;

/// The statements that are prepared on a link to a server, in the order of their preparation: each one's number there, by a number for its
/// text with the schema and the settings of its preparation.
#[derive(Drop)]
pub struct LinkStatements {
    pub(crate) numbers: IndexMap<u32, u32>,
}

impl LinkStatements {
    /// None yet.
    pub fn new(alloc: Global) -> Self
        ensures { prepared result ≡ [] }
    {
        LinkStatements {
            numbers: IndexMap::new(alloc),
        }
    }

    /// How many there are.
    pub fn len(&self) -> usize
        ensures { result ≡ length (prepared self.now) }
    {
        self.numbers.len()
    }

    /// The number of a statement on the link.
    pub fn find(&self, key: u32) -> Option<u32>
        ensures { result ≡ number_of self.now key }
    {
        self.numbers.get(&key).copied()
    }

    /// A statement was prepared and got a number, which stands for nothing else from then on.
    pub fn add(&mut self, key: u32, number: u32) -> Result<(), OutOfMemory>
        ensures { OnOk result (prepared self.new ≡ added (prepared self.old) key number) }
    {
        self.numbers.retain(
            |other: &u32, at: &mut u32| -> bool
                ensures { (result ≡ not (nat_eq other.now key || nat_eq at.old number)) × (at.new ≡ at.old) }
            { !(*other == key || *at == number) },
        );
        match self.numbers.insert(key, number) {
            Ok(_) => Ok(()),
            Err(_) => Err(OutOfMemory),
        }
    }

    /// The one that was prepared first, with its number: it is closed where the link has as many as it may.
    pub fn oldest(&self) -> Option<(u32, u32)>
        ensures { result ≡ slice_get (prepared self.now) 0 }
    {
        let (key, number) = self.numbers.first()?;
        Some((*key, *number))
    }

    /// A statement was closed.
    pub fn remove(&mut self, key: u32) -> Option<u32>
        ensures number { result ≡ number_of self.old key }
        ensures left { prepared self.new ≡ shift_remove_entry (nat_eq key) (prepared self.old) }
    {
        self.numbers.shift_remove(&key)
    }

    /// The link was reset: none is prepared any more.
    pub fn clear(&mut self)
        ensures { prepared self.new ≡ [] }
    {
        self.numbers.clear();
    }
}
