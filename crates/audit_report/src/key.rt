// What lines are counted by.
ghost use Rattle.std.specs.Prelude.{◌≡◌, ◌∷◌, IfOk};
ghost use Rattle.std.proofs.Common.{rules};
ghost use Rattle.std.specs.Hash as fed;
ghost use Rattle.std.specs.Cmp.Rules.{hashing};
ghost use Rattle.audit_report.specs.Keys.{key_of};

use crate::name::place_of;
use mx_base::{Bytes, OutOfMemory};
use pin_classifier::classify;
use query_digest::digest;
use std::alloc::Global;
use std::hash::{Hash, Hasher};

// A digest and the name of a class. Keys stand in the order of their digests' bytes, and under one digest in that of
// their names' bytes.
#[derive(PartialEq, Eq, PartialOrd, Ord, Drop)]
pub(crate) struct Key {
    pub digest: Bytes,
    // The name's place in the order of the names.
    pub name: u8,
}

impl Key {
    // The key of a line.
    #[tactic(auto, unfolding(crate::specs::Keys::key_of))]
    pub(crate) fn of(alloc: Global, line: &[u8]) -> Result<Key, OutOfMemory>
        ensures { IfOk result (λ key. key ≡ key_of line.now) }
    {
        let digest = digest(alloc, line)?;
        let class = classify(alloc, line)?;
        Ok(Key {
            digest,
            name: place_of(class.name()),
        })
    }
}

impl Hash for Key {
    ghost hash_input = { λ a. a.digest ∷ fed.u8 a.name };

    ghost respects_eq = { Prim.search (hashing, rules) };

    // A digest is one write: of a slice's own hash, each byte would be one.
    fn hash<H: Hasher>(&self, state: &mut H) {
        state.write(self.digest.as_slice());
        state.write_u8(self.name);
    }
}
