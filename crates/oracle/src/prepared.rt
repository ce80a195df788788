// What is prepared in a session.
ghost use Rattle.std.specs.Prelude.{◌≡◌, ℕ, None, Some, OnOk, nat_eq, option_copied};
ghost use Rattle.std.specs.Option.{option_map};
ghost use Rattle.private_model.specs.Story.{put};
ghost use Rattle.oracle.specs.Entries.{key_of, prepared_at};

use mx_base::{Bytes, OutOfMemory};
use session_state::Place;
use std::alloc::Global;
use std::collections::BTreeMap;

/// A text that was prepared, with the schema and the settings that its session then had.
#[derive(Drop)]
pub struct Entry {
    pub text: Bytes,
    pub place: Place,
}

/// What is prepared in a session, by keys.
#[derive(Drop)]
pub struct Prepared {
    entries: BTreeMap<u64, Entry>,
}

impl Prepared {
    /// Nothing. Takes no memory.
    pub fn new(alloc: Global) -> Self
        ensures { (key : ℕ) → prepared_at result key ≡ None }
    {
        Prepared {
            entries: BTreeMap::new(alloc),
        }
    }

    // What is prepared at a key.
    pub(crate) fn at(&self, key: u64) -> Option<&Entry>
        ensures { option_map key_of (option_copied result) ≡ prepared_at self.now key }
    {
        self.entries.get(&key)
    }

    // Puts what is prepared at a key.
    pub(crate) fn put(&mut self, key: u64, entry: Entry) -> Result<(), OutOfMemory>
        ensures { OnOk result ((k : ℕ) → prepared_at self.new k ≡ put nat_eq (prepared_at self.old) key (Some (key_of entry)) k) }
    {
        self.entries.insert(key, entry)?;
        Ok(())
    }
}
