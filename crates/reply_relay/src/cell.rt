// The one cell of an answer of one row.
ghost use Rattle.std.specs.Prelude.{◌≡◌, IfOk, fold};
ghost use Rattle.reply_relay.specs.Cells.{CellRead, one_more, new_cell, byte_taken, begun, ended, kept, number_in, cell_number};

use mx_base::{Field, OutOfMemory, get_lenenc, read_number};
use std::alloc::Global;
use std::marker::Model;

/// The length of the longest body of a packet.
const LONGEST: u32 = 16_777_215;

/// How many bytes of the row are kept: the longest spelling of a length, and one digit more than a u64 has.
const KEPT: usize = 30;

/// Where the next byte of an answer stands.
#[derive(Clone, Copy)]
pub enum Spot {
    /// At the first byte of a packet's length.
    First,
    /// At the second one, behind this first one.
    Second { low: u8 },
    /// At the third one, behind these two.
    Third { low: u16 },
    /// At its sequence id.
    Id { length: u32 },
    /// In its body, so many of whose bytes are left; the message goes on behind a `long` packet.
    Body { left: u32, long: bool },
}

/// The one cell of an answer of one column and one row, out of bytes that come in pieces: it goes from packet to packet, and keeps
/// the first bytes of the fourth message, which is the row. Takes no memory but as it is made.
#[derive(Drop)]
pub struct OneCell {
    spot: Spot,
    messages: u8,
    text: Vec<u8>,
}

impl Model for OneCell {
    ghost use Rattle.std.specs.Prelude.{◌≤◌};
    ghost use Rattle.std.specs.Vec.{vec_capacity};
    ghost use Rattle.reply_relay.specs.Cells.{CellRead};

    ghost Value = { CellRead };

    ghost view = { λ c. record { spot = c.spot; messages = c.messages; text = c.text.items } };

    ghost invariant = { λ c. 30 ≤ vec_capacity c.text };
}

// One message more, of which no more are counted than tell that there are too many.
fn one_more(messages: u8) -> u8
    ensures { result ≡ one_more messages }
{
    if messages < 6 { messages + 1 } else { messages }
}

// The number in the row.
fn number_in(row: &[u8]) -> Option<u64>
    ensures { result ≡ number_in row.now }
{
    match get_lenenc(row, 0) {
        Field::Value { n, next } => {
            let left = &row[next.min(row.len())..];
            let size = n.min(left.len() as u64) as usize;
            read_number(&left[..size])
        }
        _ => None,
    }
}

impl OneCell {
    /// Nothing of the answer came.
    pub fn new(alloc: Global) -> Result<Self, OutOfMemory>
        ensures { IfOk result (λ cell. cell ≡ new_cell) }
    {
        Ok(OneCell {
            spot: Spot::First,
            messages: 0,
            text: Vec::with_capacity(alloc, KEPT)?,
        })
    }

    /// Goes over the next bytes of the answer. Takes no memory.
    pub fn read(&mut self, bytes: &[u8])
        ensures { self.new ≡ fold byte_taken self.old bytes.now }
    {
        for byte in bytes {
            self.take(*byte);
        }
    }

    /// The number in the cell, where the answer is one of one row, and a u64 holds it.
    pub fn number(&self) -> Option<u64>
        ensures { result ≡ cell_number self.now }
    {
        if self.messages == 5 {
            number_in(&self.text)
        } else {
            None
        }
    }

    // The next byte.
    fn take(&mut self, byte: u8)
        ensures { self.new ≡ byte_taken self.old byte }
    {
        match self.spot {
            Spot::First => self.spot = Spot::Second { low: byte },
            Spot::Second { low } => {
                let low = low as u16 + 256 * byte as u16;
                self.spot = Spot::Third { low };
            }
            Spot::Third { low } => {
                let length = low as u32 + 65_536 * byte as u32;
                self.spot = Spot::Id { length };
            }
            Spot::Id { length } => self.begin(length),
            Spot::Body { left, long } => {
                self.keep(byte);
                if left <= 1 {
                    self.end(long);
                } else {
                    let left = left - 1;
                    self.spot = Spot::Body { left, long };
                }
            }
        }
    }

    // A body of this length begins.
    fn begin(&mut self, length: u32)
        ensures { self.new ≡ begun length self.old }
    {
        if length == 0 {
            self.end(false);
        } else {
            let long = length == LONGEST;
            self.spot = Spot::Body { left: length, long };
        }
    }

    // A packet ends.
    fn end(&mut self, long: bool)
        ensures { self.new ≡ ended long self.old }
    {
        self.spot = Spot::First;
        if !long {
            self.messages = one_more(self.messages);
        }
    }

    // A byte of a body.
    fn keep(&mut self, byte: u8)
        ensures { self.new ≡ kept byte self.old }
    {
        if self.messages == 3 && self.text.len() < KEPT {
            let _pushed = self.text.push(byte);
        }
    }
}
