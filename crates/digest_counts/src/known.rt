// The digest of a text that was seen.
ghost use Rattle.std.specs.Prelude.{◌≡◌, take, IfOk, IfSome};
ghost use Rattle.digest_counts.specs.Counts.{digest_start};

use mx_base::{Bytes, OutOfMemory};
use query_digest::digest_start;
use std::alloc::Global;
use std::marker::Model;

// So many bytes of a digest count.
const MOST_DIGEST: usize = 2_048;

/// So many bytes of these at most.
pub(crate) fn first_of(alloc: Global, bytes: &[u8], most: usize) -> Result<Bytes, OutOfMemory>
    ensures { IfOk result (λ first. first ≡ take most bytes.now) }
{
    let first = if bytes.len() <= most {
        bytes
    } else {
        &bytes[..most]
    };
    Bytes::from_slice(alloc, first)
}

/// A text and the first bytes of its digest. A contract sees the text.
#[derive(Drop)]
pub(crate) struct Known {
    text: Bytes,
    digest: Bytes,
}

impl Model for Known {
    ghost use Rattle.std.specs.Prelude.{◌≡◌, List, ℕ};
    ghost use Rattle.digest_counts.specs.Counts.{digest_start};

    ghost Value = { List ℕ };

    ghost view = { λ k. k.text };

    ghost invariant = { λ k. k.digest ≡ digest_start k.text };
}

impl Known {
    /// Of this text.
    pub(crate) fn of(alloc: Global, text: &[u8]) -> Result<Self, OutOfMemory>
        ensures { IfOk result (λ known. known ≡ text.now) }
    {
        Ok(Known {
            text: Bytes::from_slice(alloc, text)?,
            digest: digest_start(alloc, text, MOST_DIGEST)?,
        })
    }

    /// The first bytes of the text's digest.
    pub(crate) fn digest(&self) -> &[u8]
        ensures { result.now ≡ digest_start self.now }
    {
        self.digest.as_slice()
    }

    /// They are this text's, if it is that.
    pub(crate) fn digest_if(&self, text: &[u8]) -> Option<&[u8]>
        ensures { IfSome result (λ digest. digest.now ≡ digest_start text.now) }
    {
        if self.text.as_slice() == text {
            Some(self.digest.as_slice())
        } else {
            None
        }
    }
}
