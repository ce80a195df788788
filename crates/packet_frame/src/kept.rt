// The bytes that a framer keeps.
ghost use Rattle.std.specs.Prelude.{◌≡◌, ◌≤◌, ◌+◌, length, drop};
ghost use lib.Seq.{paste};

use crate::message::Message;
use crate::write::LONGEST;
use mx_base::OutOfMemory;
use std::alloc::Global;
use std::marker::Model;

/// The room that is kept for few bytes, in bytes.
const IDLE: usize = 4_096;

/// The bytes that a framer keeps, and the packets of the first message that are joined. The bodies of these stand one
/// behind the other, behind the header of the first: so a message of one packet stays where it came, and of a longer one
/// each body is moved once, over the headers before it, which are told by their number and the first one's id. What
/// follows the packets stays where it is, behind as many bytes as these headers have.
#[derive(Drop)]
pub(crate) struct Kept {
    items: Vec<u8>,
    gone: usize,
    packets: usize,
    first: u8,
    size: usize,
}

impl Model for Kept {
    ghost use Rattle.std.specs.Prelude.{drop};
    ghost use Rattle.packet_frame.specs.Joining.{Joined, joined_of, IsLaidOut};

    ghost Value = { Joined };

    ghost view = { λ k. joined_of k.packets k.first k.size (drop k.gone k.items.items) };

    ghost invariant = { λ k. IsLaidOut k.gone k.packets k.size k.items.items };
}

impl Kept {
    ghost use Rattle.std.specs.Prelude.{◌≡◌, ◌≤◌, ◌<◌, ◌+◌, ◌*◌, ◌%◌, ◌^◌, ◌++◌, [], length, OnOk, OnErr};
    ghost use Rattle.packet_frame.specs.Packets.{longest};
    ghost use Rattle.packet_frame.specs.Joining.{Joined, joined_message, message_told, with_body};

    /// No bytes. Takes no memory.
    pub fn new(alloc: Global) -> Self
        ensures { result ≡ record { packets = 0; first = 0; payload = []; rest = [] } }
    {
        Kept {
            items: Vec::new(alloc),
            gone: 0,
            packets: 0,
            first: 0,
            size: 0,
        }
    }

    /// Appends bytes at the back.
    pub fn push(&mut self, piece: &[u8]) -> Result<(), OutOfMemory>
        ensures ok { OnOk result (self.new ≡ record self.old { rest = self.old.rest ++ piece.now }) }
        ensures err { OnErr result (self.new ≡ self.old) }
    {
        self.settle();
        self.items.extend_from_slice(piece)?;
        Ok(())
    }

    // Moves what is left to the front, where at least as much has gone.
    fn settle(&mut self)
        ensures { self.new ≡ self.old }
    {
        let left = self.items.len() - self.gone;
        if self.gone >= left {
            self.items.drain(..self.gone);
            self.gone = 0;
        }
    }

    /// Gives memory back where few bytes are kept, but for 4,096 bytes. Takes none.
    pub fn shrink(&mut self)
        ensures { self.new ≡ self.old }
    {
        self.settle();
        if self.items.len() <= IDLE {
            self.items.shrink_to(IDLE);
        }
    }

    /// The bytes behind the packets that are joined.
    pub fn rest(&self) -> &[u8]
        ensures { result.now ≡ self.now.rest }
    {
        &self.items[self.gone + (4 * self.packets + self.size)..]
    }

    /// The bodies that are joined.
    pub fn payload(&self) -> &[u8]
        requires { 0 < self.now.packets }
        ensures { result.now ≡ self.now.payload }
    {
        let body = self.gone + 4;
        &self.items[body..body + self.size]
    }

    /// How many packets are joined.
    pub fn packets(&self) -> usize
        ensures { result ≡ self.now.packets }
    {
        self.packets
    }

    /// The sequence id of the first of these.
    pub fn first(&self) -> u8
        ensures { result ≡ self.now.first }
    {
        self.first
    }

    /// The length of their bodies.
    pub fn size(&self) -> usize
        ensures is { result ≡ length self.now.payload }
        ensures small { result < 2 ^ 63 }
    {
        let _there = self.items.len();
        self.size
    }

    /// How many bytes were read of what is kept.
    pub fn read(&self) -> usize
        ensures { result ≡ 4 * self.now.packets + length self.now.payload + length self.now.rest }
    {
        self.items.len() - self.gone
    }

    /// The sequence id behind that of the last packet that is joined.
    pub fn due(&self) -> u8
        ensures { result ≡ (self.now.first + self.now.packets) % 256 }
    {
        self.first.wrapping_add((self.packets % 256) as u8)
    }

    /// The message, where its last packet is joined.
    pub fn message(&self) -> Option<Message>
        ensures { result ≡ message_told (joined_message self.now) }
    {
        let full = self.size / LONGEST;
        if full == self.packets {
            return None;
        }
        Some(Message {
            last: self.first.wrapping_add((full % 256) as u8),
            length: self.size as u64,
        })
    }

    /// Names the sequence id of the first packet, where none is joined.
    pub fn set_first(&mut self, first: u8)
        ensures { self.new ≡ record self.old { first = first } }
    {
        self.first = first;
    }

    /// Joins the packet that the bytes behind begin with, which has a body of so many bytes.
    pub fn join(&mut self, body: usize)
        requires there { 4 + body ≤ length self.old.rest }
        requires most { body ≤ longest }
        ensures { self.new ≡ with_body body self.old }
    {
        let from = self.gone + (4 * self.packets + self.size) + 4;
        move_down(&mut self.items, from, self.gone + 4 + self.size, body);
        self.packets += 1;
        self.size += body;
    }

    /// Drops the packets that are joined. Takes no memory.
    pub fn clear(&mut self)
        ensures { self.new ≡ record { packets = 0; first = self.old.first; payload = []; rest = self.old.rest } }
    {
        self.gone += 4 * self.packets + self.size;
        self.packets = 0;
        self.size = 0;
    }
}

// Moves `n` bytes from one place to an earlier one, or to none where it is the same.
fn move_down(items: &mut Vec<u8>, from: usize, to: usize, n: usize)
    requires down { to ≤ from }
    requires there { from + n ≤ length items.old.items }
    ensures { items.new.items ≡ paste items.old.items to (drop from items.old.items) n }
{
    if from != to {
        items.copy_within(from..from + n, to);
    }
}
