// How often each digest was seen.
ghost use Rattle.std.specs.Prelude.{◌≡◌, [], IfOk, IfSome, OnErr};

use crate::known::{Known, first_of};
use mx_base::{Bytes, Hostgroup, OutOfMemory};
use query_digest::{Counted, DigestKey, DigestTable};
use std::alloc::Global;
use std::collections::HashMap;
use std::hash::{FoldHasher, Hasher};
use std::marker::Model;

/// So many texts have a place each among those whose digests are known, and no longer ones than this.
const PLACES: u64 = 2_048;

const MOST_TEXT: usize = 4_096;

/// So many bytes of a schema's name count. A server's names are shorter.
const MOST_SCHEMA: usize = 256;

/// The counts of up to 10,000 keys, and the digests of texts that were seen lately, each at the place of its hash: a text that is seen again
/// isn't split into tokens again, and memory is bounded. A contract sees the list of keys with their counts.
#[derive(Drop)]
pub struct Digests {
    alloc: Global,
    table: DigestTable,
    known: HashMap<u64, Known>,
}

impl Model for Digests {
    ghost use Rattle.std.specs.Prelude.{List, ℕ};
    ghost use Rattle.query_digest.specs.declared.table.DigestKey.{DigestKey};

    ghost Value = { List (DigestKey × ℕ) };

    ghost view = { λ d. d.table };
}

// The place of a text.
fn place_of(text: &[u8]) -> u64 {
    let mut hasher = FoldHasher::default();
    hasher.write(text);
    hasher.finish() % PLACES
}

impl Digests {
    ghost use Rattle.query_digest.specs.Table.{counted};
    ghost use Rattle.digest_counts.specs.Counts.{digest_start, key_for};

    /// Nothing was counted. Takes no memory.
    pub fn new(alloc: Global) -> Self
        ensures { result ≡ [] }
    {
        Digests {
            alloc,
            table: DigestTable::new(alloc),
            known: HashMap::new(alloc),
        }
    }

    /// The counts, in the order of first sight.
    pub fn table(&self) -> &DigestTable
        ensures { result.now ≡ self.now }
    {
        &self.table
    }

    // The first bytes of a text's digest, where they are known.
    fn known_digest(&self, place: u64, text: &[u8]) -> Option<&[u8]>
        ensures { IfSome result (λ digest. digest.now ≡ digest_start text.now) }
    {
        self.known.get(&place)?.digest_if(text)
    }

    // The first bytes of a text's digest.
    fn digest_for(&mut self, text: &[u8]) -> Result<Bytes, OutOfMemory>
        ensures is { IfOk result (λ digest. digest ≡ digest_start text.now) }
        ensures same { self.new ≡ self.old }
    {
        let place = place_of(text);
        if let Some(digest) = self.known_digest(place, text) {
            return Bytes::from_slice(self.alloc, digest);
        }
        let known = Known::of(self.alloc, text)?;
        let digest = Bytes::from_slice(self.alloc, known.digest())?;
        if text.len() <= MOST_TEXT {
            self.known.insert(place, known)?;
        }
        Ok(digest)
    }

    /// A statement of this text was sent to this hostgroup, of a client in this schema and with this user: it is counted (ProxySQL
    /// documentation, "stats_mysql_query_digest"), as a `DigestTable` counts its key. OutOfMemory changes no count.
    pub fn count(
        &mut self,
        hostgroup: Hostgroup,
        schema: &[u8],
        user: &[u8],
        text: &[u8],
    ) -> Result<Counted, OutOfMemory>
        ensures ok { IfOk result (λ answer. (answer, self.new) ≡ counted self.old (key_for hostgroup schema.now user.now text.now)) }
        ensures err { OnErr result (self.new ≡ self.old) }
    {
        let digest = self.digest_for(text)?;
        let key = DigestKey {
            hostgroup,
            schema: first_of(self.alloc, schema, MOST_SCHEMA)?,
            user: Bytes::from_slice(self.alloc, user)?,
            digest,
        };
        self.table.record(key)
    }
}
