// Rows that are found by their keys.
ghost use Rattle.std.specs.Prelude.{◌≡◌, ◌++◌, ◌∷◌, [], length, IfOk, OnOk};
ghost use Rattle.std.specs.List.{list_any};

use mx_base::{Items, OutOfMemory};
use std::alloc::Global;
use std::collections::HashSet;
use std::hash::Hash;
use std::marker::Model;

/// A row that has a key.
pub(crate) trait Keyed: Drop {
    type Key: Eq + Hash + Drop;

    ghost key_of: { Self → Self.Key };

    /// A copy of the key.
    fn key(&self, alloc: Global) -> Result<Self::Key, OutOfMemory>
        ensures { IfOk result (λ key. key ≡ key_of self.now) };
}

/// The rows so far, which contracts see as a list. A key is found in the time of a look-up in a set.
#[derive(Drop)]
pub(crate) struct KeyedRows<R: Keyed> {
    rows: Vec<R>,
    keys: HashSet<R::Key>,
}

impl<R: Keyed> Model for KeyedRows<R> {
    ghost use Rattle.std.specs.Prelude.{List};

    ghost Value = { List R };

    ghost view = { λ t. t.rows.items };

    ghost use Rattle.mx_config.specs.Names.{AreKeys};

    ghost invariant = { λ t. AreKeys R.Key.eq R.key_of t.rows.items t.keys };
}

impl<R: Keyed> KeyedRows<R> {
    pub(crate) fn new(alloc: Global) -> Self
        ensures { result ≡ [] }
    {
        KeyedRows {
            rows: Vec::new(alloc),
            keys: HashSet::new(alloc),
        }
    }

    pub(crate) fn len(&self) -> usize
        ensures { result ≡ length self.now }
    {
        self.rows.len()
    }

    pub(crate) fn has(&self, key: &R::Key) -> bool
        ensures { result ≡ list_any (λ row. R.Key.eq (R.key_of row) key.now) self.now }
    {
        self.keys.contains(key)
    }

    pub(crate) fn push(&mut self, alloc: Global, row: R) -> Result<(), OutOfMemory>
        ensures { OnOk result (self.new ≡ self.old ++ row ∷ []) }
    {
        let key = row.key(alloc)?;
        self.rows.reserve(1)?;
        self.keys.insert(key)?;
        self.rows.push(row)?;
        Ok(())
    }

    pub(crate) fn into_rows(self) -> Items<R>
        ensures { result ≡ self }
    {
        Items::from_vec(self.rows)
    }
}
