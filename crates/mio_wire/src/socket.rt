// A connection that is read and written without waiting.
ghost use Rattle.std.specs.Prelude.{◌<◌, length};
ghost use Rattle.mx_wire.specs.Answers.{ReadsAtMost, TakesAtMost};

use mio::event::Event;
use mio::net::TcpStream;
use mx_wire::{Got, Took};
use std::io::{ErrorKind, Read, Write};

/// A connection, and what the poll has said of it. Where a call would find nothing, none is made.
#[derive(Drop)]
pub struct Socket {
    stream: TcpStream,
    /// It came to a port.
    came: bool,
    /// Something may be there to read.
    readable: bool,
    /// There may be room to write.
    writable: bool,
    /// The peer sends no more, or the connection failed: behind the bytes that are left a read tells of it.
    ended: bool,
    /// Something was written there.
    written: bool,
    /// Something was read there behind what was written.
    answered: bool,
    /// Nothing is waited for any more: a read fails.
    given_up: bool,
}

impl Socket {
    /// A connection that is there, with room to write, or one that is being made: the poll names it once it is there, or has failed.
    pub fn new(stream: TcpStream, is_there: bool) -> Self {
        Socket {
            stream,
            came: is_there,
            readable: false,
            writable: is_there,
            ended: false,
            written: false,
            answered: false,
            given_up: false,
        }
    }

    /// Whether it is a client's, which came to a port.
    pub fn is_client(&self) -> bool {
        self.came
    }

    /// Whether something was read there behind what was written.
    pub fn has_answered(&self) -> bool {
        self.answered
    }

    /// The peer took too long: the next read fails.
    pub fn give_up(&mut self) {
        self.given_up = true;
    }

    /// The poll has named it. Of one that failed the next call tells.
    pub fn named(&mut self, event: &Event) {
        if event.is_read_closed() || event.is_error() {
            self.ended = true;
        }
        if event.is_readable() || self.ended {
            self.readable = true;
        }
        if event.is_writable() || event.is_write_closed() {
            self.writable = true;
        }
    }

    /// Reads to the front of `into`. epoll(7): a read that comes back short has emptied a socket, and what comes later is named; but
    /// the end of one that is over is read behind its last bytes.
    pub fn read(&mut self, into: &mut [u8]) -> Got
        requires { 0 < length into.old }
        ensures { ReadsAtMost (length into.old) result }
    {
        if self.given_up {
            return Got::Failed;
        }
        if !self.readable {
            return Got::NotReady;
        }
        match self.stream.read(into) {
            Ok(0) => Got::End,
            Ok(n) => {
                self.answered = self.written;
                self.readable = self.ended || n == into.len();
                Got::Got { n }
            }
            Err(error) if error.kind() == ErrorKind::WouldBlock => {
                self.readable = false;
                Got::NotReady
            }
            Err(_) => Got::Failed,
        }
    }

    /// Writes a front of the piece. A write that comes back short has filled the socket, and room that comes later is named.
    pub fn write(&mut self, piece: &[u8]) -> Took
        ensures { TakesAtMost (length piece.now) result }
    {
        if !self.writable {
            return Took::NotReady;
        }
        match self.stream.write(piece) {
            Ok(0) => Took::Failed,
            Ok(n) => {
                self.written = true;
                self.writable = n == piece.len();
                Took::Took { n }
            }
            Err(error) if error.kind() == ErrorKind::WouldBlock => {
                self.writable = false;
                Took::NotReady
            }
            Err(_) => Took::Failed,
        }
    }
}
