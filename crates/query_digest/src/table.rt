// How often each digest was seen.
ghost use Rattle.std.specs.Prelude.{◌≡◌, ◌<◌, [], false, length, slice_get, IfOk, OnErr, IsTrue, ◌↔◌};
ghost use Rattle.std.specs.Option.{option_map};

use indexmap::IndexMap;
use indexmap::map::Iter;
use mx_base::{Bytes, Hostgroup, OutOfMemory};
use std::alloc::Global;
use std::marker::Model;

// How many keys a table has at most.
const MOST_KEYS: usize = 10_000;

/// What statements are counted by (ProxySQL documentation, "stats_mysql_query_digest"). Keys are equal where all parts
/// are, byte for byte.
#[derive(PartialEq, Eq, Hash, Drop)]
pub struct DigestKey {
    /// Where the statement was sent.
    pub hostgroup: Hostgroup,
    /// The client's schema.
    pub schema: Bytes,
    /// The client's user.
    pub user: Bytes,
    /// The statement's digest.
    pub digest: Bytes,
}

/// What counting a statement did.
#[derive(Clone, Copy, Debug)]
pub enum Counted {
    /// The key had an entry, which counts one more now.
    Added,
    /// The key is new and has an entry with the count 1.
    First,
    /// The key is new and the table is full.
    Full,
}

/// The counts of up to 10,000 keys, in the order of first sight. A contract sees the list of keys with their counts.
#[derive(Drop)]
pub struct DigestTable {
    counts: IndexMap<DigestKey, u64>,
}

impl Model for DigestTable {
    ghost use Rattle.std.specs.Prelude.{List, ℕ, ◌≤◌, length};
    ghost use Rattle.query_digest.specs.declared.table.DigestKey.{DigestKey};

    ghost Value = { List (DigestKey × ℕ) };

    ghost view = { λ t. t.counts.entries };

    ghost invariant = { λ t. length t.counts.entries ≤ 10000 };
}

impl DigestTable {
    ghost use Rattle.query_digest.specs.Table.{counted, has_key};

    /// A table without entries. Takes no memory.
    pub fn new(alloc: Global) -> Self
        ensures { result ≡ [] }
    {
        DigestTable {
            counts: IndexMap::new(alloc),
        }
    }

    /// How many keys have an entry.
    pub fn len(&self) -> usize
        ensures { result ≡ length self.now }
    {
        self.counts.len()
    }

    pub fn is_empty(&self) -> bool
        ensures { IsTrue result ↔ (self.now ≡ []) }
    {
        self.counts.is_empty()
    }

    /// The key and its count at a place, in the order of first sight. None exactly past the end.
    pub fn row(&self, at: usize) -> Option<(&DigestKey, u64)>
        ensures { option_map (λ row. (row.0.now, row.1)) result ≡ slice_get self.now at }
    {
        let (key, count) = self.counts.get_index(at)?;
        Some((key, *count))
    }

    /// The keys and their counts, in the order of first sight. Takes no memory.
    pub fn iter(&self) -> Iter<'_, DigestKey, u64>
        ensures { result ≡ self.now }
    {
        self.counts.iter()
    }

    /// Counts one statement of this key. A count stays at the last value of a `u64`. OutOfMemory changes nothing, and
    /// comes only with a new key for which there is room.
    pub fn record(&mut self, key: DigestKey) -> Result<Counted, OutOfMemory>
        ensures ok { IfOk result (λ answer. (answer, self.new) ≡ counted self.old key) }
        ensures err { OnErr result (self.new ≡ self.old) }
        ensures only_new { OnErr result ((has_key self.old key ≡ false) × (length self.old < 10000)) }
    {
        if let Some(seen) = self.counts.get(&key) {
            let more = seen.saturating_add(1);
            self.counts.insert(key, more)?;
            return Ok(Counted::Added);
        }
        if self.counts.len() == MOST_KEYS {
            return Ok(Counted::Full);
        }
        self.counts.insert(key, 1)?;
        Ok(Counted::First)
    }
}
