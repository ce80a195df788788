// What is to be written to a client.
ghost use Rattle.std.specs.Prelude.{◌≡◌, ◌≤◌, ◌<◌, ◌++◌, [], true, false, length, drop, IfOk, OnOk, OnErr};
ghost use Rattle.client_buffer.specs.Outgoing.{Written, high_mark, one_read, last_error, most_written, is_below_mark};

use mx_base::OutOfMemory;
use std::alloc::Global;
use std::marker::Model;

/// While so many bytes are to be written to a client no more is read for it.
pub const HIGH_MARK: usize = 1_048_576;

/// The longest error that ends a client's link, in bytes.
const LAST_ERROR: usize = 128;

/// The room that is kept while nothing is to be written, in bytes.
const IDLE: usize = 4_096;

/// Bytes that are to be written to a client, behind which there is room for the error that ends its link; a client to whom
/// nothing is to be written takes 4,096 bytes. Each byte is moved a bounded number of times, however the bytes come and go:
/// those that are left move to the front only when at least as many have gone.
#[derive(Drop)]
pub struct Outgoing {
    items: Vec<u8>,
    gone: usize,
    spare: bool,
}

impl Model for Outgoing {
    ghost use Rattle.std.specs.Prelude.{◌≡◌, ◌≤◌, ◌+◌, true, length, drop};
    ghost use Rattle.std.specs.Vec.{vec_len, vec_capacity};
    ghost use Rattle.client_buffer.specs.Outgoing.{Written, HasRoom};

    ghost Value = { Written };

    ghost view = { λ o. record { bytes = drop o.gone o.items.items; spare = o.spare } };

    ghost invariant = { λ o. HasRoom o.gone (vec_len o.items) (vec_capacity o.items) o.spare };
}

impl Outgoing {
    /// Nothing, and room for the error.
    pub fn new(alloc: Global) -> Result<Self, OutOfMemory>
        ensures { IfOk result (λ outgoing. outgoing ≡ record { bytes = []; spare = true }) }
    {
        Ok(Outgoing {
            items: Vec::with_capacity(alloc, LAST_ERROR)?,
            gone: 0,
            spare: true,
        })
    }

    /// The bytes that are left, in order.
    pub fn as_slice(&self) -> &[u8]
        ensures { result.now ≡ self.now.bytes }
    {
        &self.items[self.gone..]
    }

    /// Whether a piece more may be read for the client.
    pub fn is_below_mark(&self) -> bool
        ensures { result ≡ is_below_mark (length self.now.bytes) }
    {
        self.items.len() - self.gone < HIGH_MARK
    }

    /// Appends a piece of a reply, of one read at most. Then at most 1,114,111 bytes are left. OutOfMemory leaves everything as
    /// it was.
    pub fn answer(&mut self, piece: &[u8]) -> Result<(), OutOfMemory>
        requires below { is_below_mark (length self.old.bytes) ≡ true }
        requires one_read { length piece.now ≤ one_read }
        ensures ok { OnOk result (self.new ≡ record self.old { bytes = self.old.bytes ++ piece.now }) }
        ensures err { OnErr result (self.new ≡ self.old) }
        ensures most { length self.new.bytes ≤ most_written }
    {
        self.push(piece)
    }

    /// Appends bytes of the router's own. OutOfMemory leaves everything as it was.
    pub fn push(&mut self, more: &[u8]) -> Result<(), OutOfMemory>
        ensures ok { OnOk result (self.new ≡ record self.old { bytes = self.old.bytes ++ more.now }) }
        ensures err { OnErr result (self.new ≡ self.old) }
    {
        self.settle();
        self.items.reserve(more.len() + LAST_ERROR)?;
        self.items.extend_from_slice(more)?;
        Ok(())
    }

    /// Appends the error that ends the link, for which there is room. Takes no memory.
    pub fn push_last(&mut self, error: &[u8])
        requires room { self.old.spare ≡ true }
        requires short { length error.now ≤ last_error }
        ensures { self.new ≡ record { bytes = self.old.bytes ++ error.now; spare = false } }
    {
        self.spare = false;
        let _appended = self.items.extend_from_slice(error);
    }

    /// So many of these bytes were written. Takes no memory.
    pub fn taken(&mut self, n: usize)
        requires { n ≤ length self.old.bytes }
        ensures { self.new ≡ record self.old { bytes = drop n self.old.bytes } }
    {
        self.gone += n;
        self.rest();
    }

    // Moves what is left to the front, where at least as much has gone.
    fn settle(&mut self)
        ensures { self.new ≡ self.old }
    {
        if self.gone >= self.items.len() - self.gone {
            self.items.drain(..self.gone);
            self.gone = 0;
        }
    }

    // Where nothing is left, the room is given back but for a few bytes.
    fn rest(&mut self)
        ensures { self.new ≡ self.old }
    {
        if self.gone == self.items.len() {
            self.items.clear();
            self.gone = 0;
            self.items.shrink_to(IDLE);
        }
    }
}
