// The text as received.
ghost use Rattle.std.specs.Prelude.{◌≡◌, ◌==◌, IfOk};
ghost use Rattle.query_digest.specs.Digest.{digest_of};
ghost use Rattle.query_digest.specs.Hash.{hash_of};
ghost use Rattle.query_rules.specs.Patterns.{finds};

use crate::pattern::finds;
use mx_base::{Bytes, OutOfMemory};
use query_digest::{digest, digest_hash};
use regex::bytes::Regex;
use std::alloc::Global;
use std::marker::Model;

// The digest of a text and its hash.
#[derive(Drop)]
pub(crate) struct Digested {
    digest: Bytes,
    hash: u64,
}

impl Digested {
    fn of(alloc: Global, text: &[u8]) -> Result<Self, OutOfMemory>
        ensures digest { IfOk result (λ d. d.digest ≡ digest_of text.now) }
        ensures hash { IfOk result (λ d. d.hash ≡ hash_of (digest_of text.now)) }
    {
        let digest = digest(alloc, text)?;
        let hash = digest_hash(digest.as_slice());
        Ok(Digested { digest, hash })
    }
}

/// The text as received, which is all that a contract sees. Its digest is made once, where a rule first asks for it.
#[derive(Drop)]
pub(crate) struct Received<'a> {
    alloc: Global,
    text: &'a [u8],
    digested: Option<Digested>,
}

impl<'a> Model for Received<'a> {
    ghost use Rattle.std.specs.Prelude.{◌≡◌, List, ℕ};
    ghost use Rattle.std.specs.Option.{ForSome};
    ghost use Rattle.query_digest.specs.Digest.{digest_of};
    ghost use Rattle.query_digest.specs.Hash.{hash_of};

    ghost Value = { List ℕ };

    ghost view = { λ r. r.text.now };

    ghost invariant = { λ r. ForSome r.digested (λ d. (d.digest ≡ digest_of r.text.now) × (d.hash ≡ hash_of (digest_of r.text.now))) };
}

impl<'a> Received<'a> {
    pub(crate) fn new(alloc: Global, text: &'a [u8]) -> Self
        ensures { result ≡ text.now }
    {
        Received {
            alloc,
            text,
            digested: None,
        }
    }

    /// Whether this is the hash of the text's digest.
    pub(crate) fn has_hash(&mut self, hash: u64) -> Result<bool, OutOfMemory>
        ensures has { IfOk result (λ has. has ≡ (hash_of (digest_of self.old) == hash)) }
        ensures same { self.new ≡ self.old }
    {
        if let Some(digested) = &self.digested {
            return Ok(digested.hash == hash);
        }
        let digested = Digested::of(self.alloc, self.text)?;
        let has = digested.hash == hash;
        self.digested = Some(digested);
        Ok(has)
    }

    /// Whether a pattern finds something in the text's digest.
    pub(crate) fn has_in_digest(&mut self, pattern: &Regex) -> Result<bool, OutOfMemory>
        ensures has { IfOk result (λ has. has ≡ finds pattern.now (digest_of self.old)) }
        ensures same { self.new ≡ self.old }
    {
        if let Some(digested) = &self.digested {
            return finds(self.alloc, pattern, digested.digest.as_slice());
        }
        let digested = Digested::of(self.alloc, self.text)?;
        let has = finds(self.alloc, pattern, digested.digest.as_slice());
        self.digested = Some(digested);
        has
    }
}
