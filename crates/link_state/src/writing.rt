// Bytes on their way to a server.
ghost use Rattle.std.specs.Prelude.{◌≡◌};
ghost use Rattle.mx_base.specs.Sent.{IsLent, MayTake};
ghost use Rattle.link_state.specs.Writes.{answer_id, is_whole, left_of, writing, wrote};

use crate::ids::id_behind;
use mx_base::{Bytes, Piece, Tag};

/// What is written on a link for one command, with its tag: its packets, and how many of their bytes are written.
#[derive(Drop)]
pub struct Writing {
    pub tag: Tag,
    pub bytes: Bytes,
    pub sent: usize,
}

impl Writing {
    /// Nothing is written yet. Takes no memory.
    pub fn new(tag: Tag, bytes: Bytes) -> Self
        ensures { result ≡ writing tag bytes }
    {
        Writing {
            tag,
            bytes,
            sent: 0,
        }
    }

    /// What is left, where there is any.
    pub fn outgoing(&self) -> Option<Piece<'_>>
        ensures { IsLent result (left_of self.now) }
    {
        let bytes = self.bytes.as_slice();
        if self.sent < bytes.len() {
            Some(Piece {
                tag: self.tag,
                bytes: &bytes[self.sent..],
            })
        } else {
            None
        }
    }

    /// So many bytes of what is left were written. Takes no memory.
    pub fn wrote(&mut self, count: usize)
        requires { MayTake (left_of self.old) count }
        ensures { self.new ≡ wrote count self.old }
    {
        let _length = self.bytes.as_slice().len();
        self.sent += count;
    }

    /// Whether all bytes are written.
    pub fn is_whole(&self) -> bool
        ensures { result ≡ is_whole self.now }
    {
        self.sent >= self.bytes.as_slice().len()
    }

    /// The sequence id with which an answer to what is written begins: behind the last packet of the last whole message.
    #[tactic(auto, using(crate::proofs::Walking::all_sent))]
    pub fn answer_id(&self) -> u8
        ensures { result ≡ answer_id self.now }
    {
        let bytes = self.bytes.as_slice();
        if self.sent < bytes.len() {
            id_behind(&bytes[..self.sent])
        } else {
            id_behind(bytes)
        }
    }
}
