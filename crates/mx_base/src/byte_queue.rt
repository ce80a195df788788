// Bytes that come at the back and go at the front.
ghost use Rattle.std.specs.Prelude.{◌≡◌, ◌≤◌, ◌++◌, [], length, drop, OnOk, OnErr};

use crate::OutOfMemory;
use std::alloc::Global;
use std::marker::Model;

/// The room that a queue of few bytes keeps, in bytes.
const IDLE: usize = 4_096;

/// Bytes that come at the back and go at the front, which contracts see as the list of those that are left.
/// Each byte is moved a bounded number of times, however the bytes come and go: those that are left move to
/// the front only when at least as many have gone.
#[derive(Drop)]
pub struct ByteQueue {
    items: Vec<u8>,
    gone: usize,
}

impl Model for ByteQueue {
    ghost use Rattle.std.specs.Prelude.{List, ℕ, ◌≤◌, drop, length};

    ghost Value = { List ℕ };

    ghost view = { λ q. drop q.gone q.items.items };

    ghost invariant = { λ q. q.gone ≤ length q.items.items };
}

impl ByteQueue {
    /// An empty queue. Takes no memory.
    pub fn new(alloc: Global) -> Self
        ensures { result ≡ [] }
    {
        ByteQueue {
            items: Vec::new(alloc),
            gone: 0,
        }
    }

    /// The bytes that are left, in order.
    pub fn as_slice(&self) -> &[u8]
        ensures { result.now ≡ self.now }
    {
        &self.items[self.gone..]
    }

    /// Appends bytes at the back.
    pub fn push(&mut self, more: &[u8]) -> Result<(), OutOfMemory>
        ensures ok { OnOk result (self.new ≡ self.old ++ more.now) }
        ensures err { OnErr result (self.new ≡ self.old) }
    {
        self.settle();
        self.items.extend_from_slice(more)?;
        Ok(())
    }

    /// Lets the first `n` bytes go. Takes no memory.
    pub fn advance(&mut self, n: usize)
        requires { n ≤ length self.old }
        ensures { self.new ≡ drop n self.old }
    {
        self.gone += n;
    }

    /// Gives memory back where few bytes are left, but for 4,096 bytes. Takes none.
    pub fn rest(&mut self)
        ensures { self.new ≡ self.old }
    {
        self.settle();
        if self.items.len() <= IDLE {
            self.items.shrink_to(IDLE);
        }
    }

    // Moves what is left to the front, where at least as much has gone.
    fn settle(&mut self)
        ensures { self.new ≡ self.old }
    {
        if self.gone >= self.items.len() - self.gone {
            self.items.drain(..self.gone);
            self.gone = 0;
        }
    }
}
