// What is to be written to a client.
use mx_base::{ByteQueue, OutOfMemory};
use std::alloc::Global;
use std::marker::Model;

/// What is to be written to a client: bytes that are due, and behind them what came so far of a reply that isn't whole.
/// Each byte is moved a bounded number of times.
#[derive(Drop)]
pub struct Outbox {
    alloc: Global,
    queue: ByteQueue,
    due: usize,
}

impl Model for Outbox {
    ghost use Rattle.std.specs.Prelude.{◌≤◌, drop, length, take};
    ghost use Rattle.client_seat.specs.Outgoing.{Outgoing};

    ghost Value = { Outgoing };

    ghost view = { λ o. record { due = take o.due o.queue; coming = drop o.due o.queue } };

    ghost invariant = { λ o. o.due ≤ length o.queue };
}

impl Outbox {
    ghost use Rattle.std.specs.Prelude.{◌≡◌, ◌≤◌, [], length, OnOk};
    ghost use Rattle.client_seat.specs.Outgoing.{came, comes, forgotten, said, went};

    /// Nothing. Takes no memory.
    pub fn new(alloc: Global) -> Self
        ensures { result ≡ record { due = []; coming = [] } }
    {
        Outbox {
            alloc,
            queue: ByteQueue::new(alloc),
            due: 0,
        }
    }

    /// What is due.
    pub fn due(&self) -> &[u8]
        ensures { result.now ≡ self.now.due }
    {
        self.queue.as_slice().split_at(self.due).0
    }

    // What came of a reply is forgotten.
    #[tactic(auto, using(crate::proofs::Sending::take_all, crate::proofs::Sending::drop_all, crate::proofs::Sending::front_length, crate::proofs::Sending::none_behind))]
    fn forget(&mut self) -> Result<(), OutOfMemory>
        ensures { OnOk result (self.new ≡ forgotten self.old) }
    {
        if self.due < self.queue.as_slice().len() {
            let mut queue = ByteQueue::new(self.alloc);
            queue.push(self.queue.as_slice().split_at(self.due).0)?;
            self.queue = queue;
        }
        Ok(())
    }

    /// These bytes are due, in place of what came of a reply.
    #[tactic(auto, using(crate::proofs::Sending::take_all, crate::proofs::Sending::drop_all, crate::proofs::Sending::whole))]
    pub fn say(&mut self, bytes: &[u8]) -> Result<(), OutOfMemory>
        ensures { OnOk result (self.new ≡ said bytes.now self.old) }
    {
        self.forget()?;
        self.queue.push(bytes)?;
        self.due = self.queue.as_slice().len();
        Ok(())
    }

    /// These bytes of a reply come.
    #[tactic(auto, using(crate::proofs::Sending::take_more, crate::proofs::Sending::drop_more, crate::proofs::Sending::length_more))]
    pub fn grow(&mut self, bytes: &[u8]) -> Result<(), OutOfMemory>
        ensures { OnOk result (self.new ≡ comes bytes.now self.old) }
    {
        self.queue.push(bytes)
    }

    /// The reply is whole. Takes no memory.
    #[tactic(auto, using(crate::proofs::Sending::take_all, crate::proofs::Sending::drop_all, crate::proofs::Sending::parts))]
    pub fn finish(&mut self)
        ensures { self.new ≡ came self.old }
    {
        self.due = self.queue.as_slice().len();
    }

    /// So many of the bytes that are due were written. Takes no memory, and gives it back that a long answer took.
    pub fn advance(&mut self, n: usize)
        requires { n ≤ length self.old.due }
        ensures { self.new ≡ went n self.old }
    {
        self.queue.advance(n);
        self.queue.rest();
        self.due -= n;
    }
}
