// The wire over real sockets.
ghost use Rattle.std.specs.Prelude.{◌≡◌, ◌<◌, None, length};
ghost use Rattle.mx_wire.specs.Answers.{ReadsAtMost, TakesAtMost};
ghost use Rattle.mx_wire.specs.Tells.{HasCause};

use crate::salt::new_salt;
use crate::sockets::{NAMED_AT_ONCE, Sockets};
use http_server::Log;
use mio::Events;
use mx_base::{Address, LinkId, OutOfMemory, Port, ServerId, Tag};
use mx_wire::{Accepted, Got, Listened, Opened, Took, Wire, Woke};
use std::alloc::Global;
use std::io;
use std::net::Net;
use std::random::RandomSource;
use std::time::{Clock, Duration};

/// How long a wait lasts at most, in milliseconds, while a client waits that couldn't be taken for want of descriptors.
const TRY_AGAIN_MS: u64 = 100;

/// TCP over IPv4. A link is a connection that never waits, and small pieces are sent at once (TCP_NODELAY). A moment is one of the
/// runtime's clock that never goes back, in milliseconds. No log is told; a fault of a port or a wait is counted, and so is one of a
/// link.
#[derive(Drop)]
pub struct MioWire<'a, R> {
    rt: &'a R,
    events: Events,
    sockets: Sockets,
    now_ms: u64,
    port_failed: Log<(), ()>,
    failed: Log<(), ()>,
}

impl<'a, R: Net + Clock + RandomSource> MioWire<'a, R> {
    /// A wire without ports and links, where the system has memory and a descriptor for its poll.
    pub fn new(rt: &'a R, alloc: Global) -> Result<Self, OutOfMemory> {
        let Ok(sockets) = Sockets::new(rt, alloc) else {
            return Err(OutOfMemory);
        };
        Ok(MioWire {
            rt,
            events: Events::with_capacity(alloc, NAMED_AT_ONCE)?,
            sockets,
            now_ms: 0,
            port_failed: Log::new(),
            failed: Log::new(),
        })
    }
}

impl<R: Net + Clock + RandomSource> Wire for MioWire<'_, R> {
    ghost told = { λ wire. None };

    ghost port_faults = { λ wire. length wire.port_failed.items };

    ghost faults = { λ wire. length wire.failed.items };

    ghost Rules = { Unit {0} };

    ghost ruled_by = { λ _. tt };

    ghost takes = { λ _ _ _ _ _. Unit {0} };

    fn reserve(&mut self, links: u32) -> Result<(), OutOfMemory> {
        self.sockets.reserve(links)
    }

    fn listen(&mut self, port: Port, address: Address) -> Listened {
        match self.sockets.listen(self.rt, port, address) {
            Ok(()) => Listened::Done,
            Err(_) => {
                self.port_failed = self.port_failed.and(&(), &());
                Listened::Failed
            }
        }
    }

    fn wait(&mut self, until_ms: u64) -> Woke {
        match sleep(self.rt, &mut self.sockets, &mut self.events, until_ms) {
            Ok(now_ms) => {
                self.now_ms = self.now_ms.max(now_ms);
                Woke::Woke {
                    now_ms: self.now_ms,
                }
            }
            Err(_) => {
                self.port_failed = self.port_failed.and(&(), &());
                Woke::Failed
            }
        }
    }

    fn next_ready(&mut self) -> Option<LinkId> {
        self.sockets.next_ready()
    }

    fn accept(&mut self, port: Port) -> Accepted {
        match next_client(self.rt, &mut self.sockets, port) {
            Ok(Some(client)) => {
                let salt = client.salt;
                Accepted::Link {
                    id: client.link,
                    salt,
                }
            }
            Ok(None) => Accepted::NotReady,
            Err(_) => {
                self.port_failed = self.port_failed.and(&(), &());
                Accepted::Failed
            }
        }
    }

    /// Doesn't wait for the connection: one that fails later is a link that failed, and so is one that has answered nothing of what was
    /// written ten seconds after the wake in which it was opened.
    fn open(&mut self, _server: ServerId, address: Address) -> Opened {
        match self.sockets.open(self.rt, address, self.now_ms) {
            Ok(id) => Opened::Link { id },
            Err(_) => {
                self.failed = self.failed.and(&(), &());
                Opened::Failed
            }
        }
    }

    fn read(&mut self, link: LinkId, into: &mut [u8]) -> Got {
        let got = match self.sockets.link(link) {
            Some(socket) => socket.read(into),
            None => Got::Failed,
        };
        count_read(&mut self.failed, got);
        got
    }

    fn write(&mut self, link: LinkId, _tag: Tag, piece: &[u8]) -> Took {
        let took = match self.sockets.link(link) {
            Some(socket) => socket.write(piece),
            None => Took::Failed,
        };
        count_write(&mut self.failed, took);
        took
    }

    fn close(&mut self, link: LinkId) {
        self.sockets.close(link)
    }
}

// Counts a read that failed.
fn count_read(failed: &mut Log<(), ()>, got: Got)
    ensures { HasCause (got ≡ Got.Failed) (length failed.old.items) (length failed.new.items) }
{
    if let Got::Failed = got {
        *failed = failed.and(&(), &());
    }
}

// Counts a write that failed.
fn count_write(failed: &mut Log<(), ()>, took: Took)
    ensures { HasCause (took ≡ Took.Failed) (length failed.old.items) (length failed.new.items) }
{
    if let Took::Failed = took {
        *failed = failed.and(&(), &());
    }
}

// Waits until the moment, or until something is ready or given up. The moment of waking.
fn sleep<R: Clock>(
    rt: &R,
    sockets: &mut Sockets,
    events: &mut Events,
    until_ms: u64,
) -> io::Result<u64> {
    let until_ms = match sockets.gives_up_at() {
        Some(at) => until_ms.min(at),
        None => until_ms,
    };
    let left = until_ms.saturating_sub(moment(rt)?);
    let most = if sockets.are_owed() {
        left.min(TRY_AGAIN_MS)
    } else {
        left
    };
    sockets.wait(events, Duration::from_millis(most))?;
    let now_ms = moment(rt)?;
    sockets.give_up(now_ms)?;
    Ok(now_ms)
}

fn moment<R: Clock>(rt: &R) -> io::Result<u64> {
    Ok(rt.monotonic()?.as_millis().min(u64::MAX as u128) as u64)
}

// A client that was accepted.
#[derive(Clone, Copy)]
struct Client {
    link: LinkId,
    salt: [u8; 20],
}

// The next client at the port, with a salt of its own.
fn next_client<R: RandomSource>(
    rt: &R,
    sockets: &mut Sockets,
    port: Port,
) -> io::Result<Option<Client>> {
    match sockets.accept(port)? {
        Some(link) => {
            let salt = new_salt(rt)?;
            Ok(Some(Client { link, salt }))
        }
        None => Ok(None),
    }
}
