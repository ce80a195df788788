// The hashes of digests.
ghost use Rattle.std.specs.Prelude.{◌≡◌, map, IfOk};
ghost use Rattle.query_digest.specs.Hash.{hash_of};
ghost use Rattle.sql_whitelist.specs.Hashes.{AreHashes};

use mx_base::{Bytes, OutOfMemory};
use query_digest::digest_hash;
use std::alloc::Global;

// The hash of each digest, in their order.
fn hash_each(alloc: Global, digests: &[Bytes]) -> Result<Vec<u64>, OutOfMemory>
    ensures { IfOk result (λ hashes. hashes.items ≡ map hash_of digests.now) }
{
    let mut hashes = Vec::with_capacity(alloc, digests.len())?;
    for digest in digests {
        hashes.push(digest_hash(digest.as_slice()))?;
    }
    Ok(hashes)
}

/// The hashes of digests, each once, ascending. The only error is want of memory.
pub fn hashes(alloc: Global, digests: &[Bytes]) -> Result<Vec<u64>, OutOfMemory>
    ensures { IfOk result (λ hashes. AreHashes digests.now hashes.items) }
{
    let mut hashes = hash_each(alloc, digests)?;
    hashes.sort()?;
    hashes.dedup();
    Ok(hashes)
}
