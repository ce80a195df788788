// What users may run.
ghost use Rattle.std.specs.Prelude.{◌≡◌, ◌||◌, ◌&&◌, ◌==◌, List, ℕ, bytes_eq, nat_eq, OnOk, IfOk};
ghost use Rattle.std.specs.HashSet.{contains};
ghost use Rattle.std.specs.List.{list_any};
ghost use Rattle.sql_whitelist.specs.Commands.{IsListOf};
ghost use Rattle.sql_whitelist.specs.Held.{holds, in_schemas, in_users};
ghost use Rattle.sql_whitelist.specs.Listed.{has_hash};

use crate::ListRow;
use mx_base::OutOfMemory;
use std::alloc::Global;
use std::collections::{HashMap, HashSet};

// The hashes of each schema.
type Schemas = HashMap<Vec<u8>, HashSet<u64>>;

/// The hashes that each user may run in each schema.
#[derive(Drop)]
pub struct Whitelist {
    users: HashMap<Vec<u8>, Schemas>,
}

// Adds hashes to those of a schema.
fn add_hashes(digests: &mut HashSet<u64>, hashes: &[u64]) -> Result<(), OutOfMemory>
    ensures { OnOk result ((hash : ℕ) → contains nat_eq digests.new hash ≡ (contains nat_eq digests.old hash || list_any (λ listed. listed == hash) hashes.now)) }
{
    for hash in hashes {
        digests.insert(*hash)?;
    }
    Ok(())
}

// Adds a row to those of its user.
fn add_schema(alloc: Global, schemas: &mut Schemas, row: &ListRow) -> Result<(), OutOfMemory>
    ensures { OnOk result ((schema : List ℕ) (hash : ℕ) → in_schemas schemas.new schema hash ≡ (in_schemas schemas.old schema hash || (bytes_eq row.now.schema schema && list_any (λ listed. listed == hash) row.now.digests))) }
{
    let schema = row.schema.as_slice();
    let mut digests = schemas.remove(schema).unwrap_or(HashSet::new(alloc));
    add_hashes(&mut digests, row.digests.as_slice())?;
    schemas.insert(Vec::from_slice(alloc, schema)?, digests)?;
    Ok(())
}

// Adds a row.
fn add_row(
    alloc: Global,
    users: &mut HashMap<Vec<u8>, Schemas>,
    row: &ListRow,
) -> Result<(), OutOfMemory>
    ensures { OnOk result ((user schema : List ℕ) (hash : ℕ) → in_users users.new user schema hash ≡ (in_users users.old user schema hash || has_hash row.now user schema hash)) }
{
    let user = row.user.as_slice();
    let mut schemas = users.remove(user).unwrap_or(HashMap::new(alloc));
    add_schema(alloc, &mut schemas, row)?;
    users.insert(Vec::from_slice(alloc, user)?, schemas)?;
    Ok(())
}

impl Whitelist {
    /// The list of these rows, in which users, schemas and digests may stand more than once. The only error is want of
    /// memory.
    pub fn build(alloc: Global, rows: &[ListRow]) -> Result<Whitelist, OutOfMemory>
        ensures { IfOk result (IsListOf rows.now) }
    {
        let mut users = HashMap::new(alloc);
        for row in rows {
            add_row(alloc, &mut users, row)?;
        }
        Ok(Whitelist { users })
    }

    /// Whether a row of this user and this schema has the hash. Takes three look-ups, and no memory.
    pub fn allows(&self, user: &[u8], schema: &[u8], hash: u64) -> bool
        ensures { result ≡ holds self.now user.now schema.now hash }
    {
        let Some(schemas) = self.users.get(user) else {
            return false;
        };
        let Some(digests) = schemas.get(schema) else {
            return false;
        };
        digests.contains(&hash)
    }
}
