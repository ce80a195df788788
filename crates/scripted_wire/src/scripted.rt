// A wire between clients that follow scripts and servers in code.
ghost use Rattle.std.specs.Prelude.{◌≡◌, ◌+◌, ◌≤◌, true, [], length, map, Some, IfSome, option_map};
ghost use Rattle.std.specs.List.{All};
ghost use Rattle.handshake.specs.Spelling.{IsText};
ghost use Rattle.mx_wire.specs.Answers.{accepted_entry, opened_entry};
ghost use Rattle.mx_wire.specs.Log.{Log as Told};
ghost use Rattle.mx_wire.specs.Tells.{Tells};
ghost use Rattle.mx_wire.specs.declared.entry.Entry.TheVariants as entry;
ghost use Rattle.scripted_wire.specs.Plays.{Cast, IsPlayOf};

use crate::calls::Calls;
use crate::hosts::Hosts;
use crate::salt::salt_of;
use crate::script::Script;
use crate::stage::Stage;
use crate::waiting::Waiting;
use http_server::Log;
use mx_base::{Address, Bytes, LinkId, OutOfMemory, Port, ServerId, Tag};
use mx_wire::{Accepted, Entry, Got, Listened, Opened, ToldLog, Took, Wire, Woke, read_entry};
use server_rule::TameServer;
use std::alloc::Global;
use std::marker::Model;

/// A wire between clients that follow scripts and servers in code. It tells its log until it finds no memory, or would reach 2^48
/// entries; its waits answer Over then.
///
/// All clients wait at the port of traffic from the beginning. What is written to one it hears at once, and says its next command
/// where the reply to the last is whole then. What is written to a server stays until a wake: at each wake each server takes, in the
/// order of links, the next thing on a link that was written whole, be it the router's login or a command, and the moment goes on by a
/// millisecond. A server lets everyone in who can be read. Where the router has closed a link and nothing is left to run there, the
/// server closes its session. Writes take all bytes.
#[derive(Drop)]
pub struct Scripted<R: TameServer> {
    alloc: Global,
    hosts: Hosts<R>,
    stage: Stage,
    told: ToldLog,
    calls: Calls,
    began: Log<Hosts<R>, Waiting>,
}

impl<R: TameServer> Model for Scripted<R> {
    ghost use Rattle.std.specs.Prelude.{length};
    ghost use Rattle.scripted_wire.specs.Plays.{IsPlayed, cast_of};
    ghost use Rattle.scripted_wire.specs.Shown.{Shown};
    ghost use Rattle.scripted_wire.specs.Sound.{IsSound};

    ghost Value = { Shown };

    ghost view = { λ s. record { cast = cast_of s.began.items; told = s.told; failed = s.calls } };

    ghost invariant = { λ s. IsSound (length s.stage.links.items) s.stage.moment s.told × IsPlayed R.step (cast_of s.began.items) (record { stage = s.stage; hosted = s.hosts }) s.told };
}

impl<R: TameServer> Scripted<R> {
    /// A wire of these servers, counted from 1, and the clients of these scripts, which come in this order. The calls of these numbers
    /// fail: `listen`, `wait`, `accept`, `open`, `read` and `write` are counted, from 1. A server takes the data that it begins with, and
    /// no user's name has a NUL. Takes no memory.
    pub fn new(alloc: Global, servers: Vec<R>, clients: Vec<Script>, failing: Vec<u64>) -> Self
        requires servers { All (λ server. R.tests.is_data (R.stored server) ≡ true) servers.items }
        requires clients { All (λ script. IsText script.user) clients.items }
        ensures { result ≡ record { cast = record { stored = map R.stored servers.items; scripts = clients.items }; told = Some []; failed = record { ports = 0; links = 0 } } }
    {
        let hosts = Hosts::new(alloc, servers);
        let stage = Stage::new(alloc, clients);
        let began = Log::new().and(&hosts, &stage.waiting);
        Scripted {
            alloc,
            hosts,
            stage,
            told: ToldLog::new(alloc),
            calls: Calls::new(failing),
            began,
        }
    }

    /// The log so far, where it is told. It is one that these servers and clients give.
    pub fn log(&self) -> Option<&[Entry]>
        ensures told { option_map (λ log. log.now) result ≡ self.now.told }
        ensures plays { (log : Told) → self.now.told ≡ Some log → IsPlayOf R.step self.now.cast log }
    {
        self.told.told()
    }

    // The next client comes, where one waits.
    fn accept_next(&mut self) -> Accepted
        ensures told { Tells self.old.told (accepted_entry Port.Traffic result) self.new.told }
        ensures right { result ≡ Accepted.Failed → ⊥ }
        ensures failed { self.new.failed ≡ self.old.failed }
        ensures cast { self.new.cast ≡ self.old.cast }
    {
        let port = Port::Traffic;
        let id = self.stage.next_link();
        let salt = salt_of(id.0);
        match self.stage.accept(self.alloc) {
            Ok(true) => {
                self.told.add(Entry::Accepted {
                    port,
                    link: id,
                    salt,
                });
                Accepted::Link { id, salt }
            }
            Ok(false) => {
                self.told.add(Entry::AcceptNothing { port });
                Accepted::NotReady
            }
            Err(_) => {
                self.told.stop();
                Accepted::NotReady
            }
        }
    }

    // No link comes.
    fn open_fails(&mut self, server: ServerId, address: Address) -> Opened
        ensures told { Tells self.old.told (opened_entry server address result) self.new.told }
        ensures links { self.new.failed.links ≡ self.old.failed.links + 1 }
        ensures ports { self.new.failed.ports ≡ self.old.failed.ports }
        ensures cast { self.new.cast ≡ self.old.cast }
    {
        self.told.add(Entry::OpenFailed { server, address });
        self.calls.fail_link();
        Opened::Failed
    }

    // A link to the server comes, where there is one of this number.
    fn open_to(&mut self, server: ServerId, address: Address) -> Opened
        ensures told { Tells self.old.told (opened_entry server address result) self.new.told }
        ensures right { result ≡ Opened.Failed → self.new.failed.links ≡ self.old.failed.links + 1 }
        ensures links { self.old.failed.links ≤ self.new.failed.links }
        ensures ports { self.new.failed.ports ≡ self.old.failed.ports }
        ensures cast { self.new.cast ≡ self.old.cast }
    {
        let Some(at) = self.hosts.index(server) else {
            return self.open_fails(server, address);
        };
        let id = self.stage.next_link();
        match self.stage.open(self.alloc, at) {
            Ok(()) => {
                self.told.add(Entry::Opened {
                    server,
                    address,
                    link: id,
                });
                Opened::Link { id }
            }
            Err(_) => {
                self.told.stop();
                self.calls.fail_link();
                Opened::Failed
            }
        }
    }
}

impl<R: TameServer> Wire for Scripted<R> {
    ghost told = { λ wire. wire.told };

    ghost port_faults = { λ wire. wire.failed.ports };

    ghost faults = { λ wire. wire.failed.links };

    ghost Rules = { Cast };

    ghost ruled_by = { λ wire. wire.cast };

    ghost takes = { λ _ _ _ piece taken. taken ≡ piece };

    fn reserve(&mut self, _links: u32) -> Result<(), OutOfMemory> {
        Ok(())
    }

    fn listen(&mut self, port: Port, address: Address) -> Listened {
        if self.calls.next_fails() {
            self.told.add(Entry::ListenFailed { port });
            self.calls.fail_port();
            return Listened::Failed;
        }
        self.told.add(Entry::Listening { port, address });
        Listened::Done
    }

    fn wait(&mut self, until_ms: u64) -> Woke {
        if self.calls.next_fails() {
            self.told.add(Entry::WaitFailed);
            self.calls.fail_port();
            return Woke::Failed;
        }
        let Ok(worked) = self
            .stage
            .serve(self.alloc, &mut self.hosts, &mut self.told)
        else {
            self.told.stop();
            return Woke::Over;
        };
        if self.told.is_stopped() {
            return Woke::Over;
        }
        if self.stage.is_done(worked) {
            self.told.add(Entry::Over);
            return Woke::Over;
        }
        self.stage.wake();
        let now_ms = self.stage.moment;
        self.told.add(Entry::Woke { until_ms, now_ms });
        Woke::Woke { now_ms }
    }

    fn next_ready(&mut self) -> Option<LinkId> {
        match self.stage.name() {
            Some(link) => {
                self.told.add(Entry::Named { link });
                Some(link)
            }
            None => {
                self.told.add(Entry::NoneNamed);
                None
            }
        }
    }

    fn accept(&mut self, port: Port) -> Accepted {
        if self.calls.next_fails() {
            self.told.add(Entry::AcceptFailed { port });
            self.calls.fail_port();
            return Accepted::Failed;
        }
        match port {
            Port::Traffic => self.accept_next(),
            Port::Admin => {
                self.told.add(Entry::AcceptNothing { port: Port::Admin });
                Accepted::NotReady
            }
        }
    }

    fn open(&mut self, server: ServerId, address: Address) -> Opened {
        if self.calls.next_fails() {
            return self.open_fails(server, address);
        }
        self.open_to(server, address)
    }

    fn read(&mut self, link: LinkId, into: &mut [u8]) -> Got {
        if self.calls.next_fails() {
            self.told.add(Entry::ReadFailed { link });
            self.calls.fail_link();
            return Got::Failed;
        }
        let got = self.stage.read(link, into);
        self.told.add_if(read_entry(self.alloc, link, got, into));
        got
    }

    fn write(&mut self, link: LinkId, tag: Tag, piece: &[u8]) -> Took {
        if self.calls.next_fails() {
            self.told.add(Entry::WriteFailed { link });
            self.calls.fail_link();
            return Took::Failed;
        }
        let took = Took::Took { n: piece.len() };
        match self.stage.write(self.alloc, link, piece) {
            Ok(()) => {
                self.told.add_if(write_entry(self.alloc, link, tag, piece));
                took
            }
            Err(_) => {
                self.told.stop();
                took
            }
        }
    }

    fn close(&mut self, link: LinkId) {
        self.told.add(Entry::Closed { link });
        self.stage.close(link);
    }
}

// The entry of a write of a whole piece, where there is memory for it.
fn write_entry(alloc: Global, link: LinkId, tag: Tag, piece: &[u8]) -> Option<Entry>
    ensures { IfSome result (λ e. e ≡ entry.Wrote link tag piece.now) }
{
    let bytes = Bytes::from_slice(alloc, piece).ok()?;
    Some(Entry::Wrote { link, tag, bytes })
}
