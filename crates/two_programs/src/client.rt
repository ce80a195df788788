// A client on a real socket.
ghost use Rattle.handshake.specs.Spelling.{IsText};

use crate::ports::on_loopback;
use crate::process::{MOST_TRIES, pause};
use crate::reply::{error_in_words, in_words};
use mx_base::{OutOfMemory, Tag};
use server_side::{Backend, BackendFault, Heard, Stage};
use std::alloc::Global;
use std::io::{self, ErrorKind, Read, Write};
use std::net::TcpStream;
use std::time::Duration;

/// How long a client waits for bytes, in seconds.
const PATIENCE: u64 = 10;

/// How often it reads for a reply at most.
const MOST_READS: u32 = 100;

/// A client on a socket (client/server protocol, "Connection Lifecycle").
#[derive(Drop)]
pub struct Client {
    alloc: Global,
    stream: TcpStream,
    backend: Backend,
}

fn fault(kind: ErrorKind) -> io::Error {
    io::Error::from(kind)
}

fn refused(_: OutOfMemory) -> io::Error {
    fault(ErrorKind::OutOfMemory)
}

// A connection to the port, once somebody listens there.
fn connect(rt: &HostRuntime, port: u16) -> io::Result<TcpStream> {
    for _ in 0..MOST_TRIES {
        if let Ok(stream) = TcpStream::connect(rt, on_loopback(port)) {
            return Ok(stream);
        }
        pause(rt);
    }
    Err(fault(ErrorKind::TimedOut))
}

impl Client {
    /// A client that has come to the port, and has heard nothing. The user's name has no NUL.
    pub fn connect(rt: &HostRuntime, port: u16, user: &[u8], password: &[u8]) -> io::Result<Client>
        requires { IsText user.now }
    {
        let alloc = rt.alloc();
        let stream = connect(rt, port)?;
        stream.set_read_timeout(Some(Duration::from_secs(PATIENCE)))?;
        stream.set_nodelay(true)?;
        Ok(Client {
            alloc,
            stream,
            backend: Backend::new(alloc, user, password, false).map_err(refused)?,
        })
    }

    // Writes what is to be written.
    fn write(&mut self) -> io::Result<()> {
        let Some(piece) = self.backend.outgoing() else {
            return Ok(());
        };
        let count = piece.bytes.len();
        self.stream.write_all(piece.bytes)?;
        self.backend.taken(count);
        Ok(())
    }

    // Takes what was read, and says whether the login or the reply is whole.
    fn take(&mut self, piece: &mut [u8]) -> Result<bool, BackendFault> {
        let count = piece.len();
        match self.backend.got(piece)? {
            Heard::LoggedIn => Ok(true),
            Heard::Whole { used } if used == count => Ok(true),
            Heard::Whole { .. } => Err(BackendFault::BadBytes { at: 0 }),
            Heard::Quiet | Heard::Part { .. } => Ok(false),
        }
    }

    // Reads until the login or the reply is whole, and gives the code by which the login is refused.
    fn hear(&mut self) -> io::Result<Option<u16>> {
        let mut buffer = [0u8; 4_096];
        for _ in 0..MOST_READS {
            let count = self.stream.read(&mut buffer)?;
            if count == 0 {
                return Err(fault(ErrorKind::UnexpectedEof));
            }
            let heard = self.take(&mut buffer[..count]);
            self.write()?;
            match heard {
                Ok(true) => return Ok(None),
                Ok(false) => {}
                Err(BackendFault::Denied { code }) => return Ok(Some(code)),
                Err(_) => return Err(fault(ErrorKind::InvalidData)),
            }
        }
        Err(fault(ErrorKind::TimedOut))
    }

    /// Logs in, and says how that ends.
    pub fn log_in(&mut self) -> io::Result<String> {
        match self.hear()? {
            Some(code) => error_in_words(self.alloc, code),
            None => Ok(String::from_str(self.alloc, "OK")?),
        }
    }

    // Says a command, where the last one was answered.
    fn command(&mut self, payload: &[u8]) -> io::Result<()> {
        if !matches!(self.backend.stage(), Stage::In) || self.backend.has_command() {
            return Err(fault(ErrorKind::InvalidInput));
        }
        self.backend.command(Tag::Own, payload, 1).map_err(refused)?;
        self.write()
    }

    /// Says a statement.
    pub fn say(&mut self, statement: &str) -> io::Result<()> {
        let mut payload = Vec::new(self.alloc);
        payload.push(0x03)?;
        payload.extend_from_slice(statement.as_bytes())?;
        self.command(&payload)
    }

    /// What it is answered, in words.
    pub fn answer(&mut self) -> io::Result<String> {
        self.hear()?;
        in_words(self.alloc, self.backend.reply())
    }

    /// Says that it goes.
    pub fn quit(&mut self) -> io::Result<()> {
        self.command(&[0x01])
    }

    /// Whether it hears nothing more.
    pub fn is_closed(&mut self) -> io::Result<bool> {
        Ok(self.stream.read(&mut [0])? == 0)
    }
}
