// The lines of one link of a recording.
ghost use Rattle.std.specs.Prelude.{◌≡◌, ◌<◌, ◌≤◌, length, Some};
ghost use Rattle.mem_wire.specs.Play.{is_ready, has_failed};
ghost use Rattle.mem_wire.specs.Fitting.{fit};
ghost use Rattle.mem_wire.specs.Tracks.{blank, room_in, read_change, write_change};
ghost use Rattle.mem_wire.specs.Steps.{ReadsTrack, WritesTrack};
ghost use Rattle.mem_wire.specs.Naming.{may_be_ready};

use crate::ending::Ending;
use crate::marks::Mark;
use crate::room::Room;
use mx_base::{ByteQueue, Items, LinkId};
use mx_wire::{Got, Took};
use std::alloc::Global;

/// What the lines of one link have given so far, whether the link has come or not.
#[derive(Drop)]
pub(crate) struct Track {
    /// The link, once it has come.
    pub link: Option<LinkId>,
    pub closed: bool,
    /// The released bytes that were not read.
    pub unread: ByteQueue,
    /// How the link ends behind them, and whether that was told.
    pub ending: Option<Ending>,
    pub told: bool,
    /// The limit for writes, of the last wake that set one.
    pub room: Option<Room>,
    /// The last write found no room.
    pub blocked: bool,
    /// The marks of its released lines.
    pub marks: Items<Mark>,
    /// The line of the wake that named it last.
    pub named: Option<usize>,
}

impl Track {
    pub fn new(alloc: Global) -> Self
        ensures { result ≡ blank }
    {
        Track {
            link: None,
            closed: false,
            unread: ByteQueue::new(alloc),
            ending: None,
            told: false,
            room: None,
            blocked: false,
            marks: Items::new(alloc),
            named: None,
        }
    }

    /// Moves a front of the unread bytes to the front of `into`, or says how the link stands behind them.
    pub fn read(&mut self, into: &mut [u8]) -> Got
        requires { 0 < length into.old }
        ensures reads { ReadsTrack self.old into.old into.new result }
        ensures change { self.new ≡ read_change result self.old }
    {
        let ready = self.unread.as_slice();
        if !ready.is_empty() {
            let n = into.len().min(ready.len());
            into[..n].copy_from_slice(&ready[..n]);
            self.unread.advance(n);
            return Got::Got { n };
        }
        match self.ending {
            None => Got::NotReady,
            Some(Ending::End) => {
                self.told = true;
                Got::End
            }
            Some(Ending::Fail) => {
                self.told = true;
                Got::Failed
            }
        }
    }

    // Whether the link has failed: the bytes before its fault were read.
    fn has_failed(&self) -> bool
        ensures { result ≡ has_failed self.now.unread self.now.ending }
    {
        match self.ending {
            Some(Ending::Fail) => self.unread.as_slice().is_empty(),
            _ => false,
        }
    }

    /// How many bytes more writes take in the wake of this line, where there is a limit.
    pub fn room_in(&self, wake: usize) -> Option<u64>
        ensures { result ≡ room_in wake self.now.room }
    {
        match self.room {
            Some(room) if room.wake == wake => Some(room.left),
            _ => None,
        }
    }

    /// Whether a wake that begins at this line is to name the link, if it is open.
    pub fn is_ready(&self, wake: usize) -> bool
        ensures { result ≡ is_ready self.now.unread self.now.ending self.now.told self.now.blocked (room_in wake self.now.room) }
    {
        if !self.unread.as_slice().is_empty() {
            return true;
        }
        if self.ending.is_some() && !self.told {
            return true;
        }
        self.blocked && self.room_in(wake) != Some(0)
    }

    /// Whether the link may be ready in the wake of this line, or in a later one without a line of it.
    pub fn may_be_ready(&self, wake: usize) -> bool
        ensures { result ≡ may_be_ready wake self.now }
    {
        !self.closed && (self.is_ready(wake) || self.room_in(wake).is_some())
    }

    /// Takes a front of so many bytes in the wake of this line.
    pub fn write(&mut self, wake: usize, size: usize) -> Took
        requires { 0 < size }
        ensures writes { WritesTrack wake self.old size result }
        ensures change { self.new ≡ write_change result self.old }
    {
        if self.has_failed() {
            self.told = true;
            return Took::Failed;
        }
        let n = fitting(self.room_in(wake), size);
        if n == 0 {
            self.blocked = true;
            return Took::NotReady;
        }
        if let Some(room) = self.room {
            self.room = Some(room.without(n));
        }
        self.blocked = false;
        Took::Took { n }
    }
}

// How many of the bytes fit.
fn fitting(room: Option<u64>, size: usize) -> usize
    requires { 0 < size }
    ensures most { result ≤ size }
    ensures fits { result ≡ fit room size }
    ensures none { result ≡ 0 → room ≡ Some 0 }
{
    match room {
        Some(left) if left < size as u64 => left as usize,
        _ => size,
    }
}
