// A wire that plays a recording.
ghost use Rattle.std.specs.Prelude.{◌≡◌, List, [], length, Some, IfSome, option_map};
ghost use Rattle.mx_wire.specs.Answers.{took_entry, TakesAtMost};
ghost use Rattle.mx_wire.specs.Log.{Log as Told};
ghost use Rattle.mx_wire.specs.Tells.{HasCause};
ghost use Rattle.recording.specs.Playable.{IsPlayable};
ghost use Rattle.recording.specs.declared.entry.RecordEntry.{RecordEntry};
ghost use Rattle.mem_wire.specs.Play.{IsPlay};
ghost use Rattle.mem_wire.specs.Fitting.{takes};

use crate::adding::{add_call, add_marks};
use crate::lines::{first_moment, lines_of_moment, put_marks};
use crate::naming::next_to_name;
use crate::stage::Stage;
use crate::steps;
use http_server::Log;
use mx_base::{Address, Bytes, LinkId, OutOfMemory, Port, ServerId, Tag};
use mx_wire::{Accepted, Entry, Got, Listened, Opened, ToldLog, Took, Wire, Woke, read_entry};
use recording::RecordEntry;
use std::alloc::Global;
use std::marker::Model;

/// A wire that plays a recording, and tells its log until it finds no memory for an entry, or would reach 2^48
/// entries.
#[derive(Drop)]
pub struct Tape {
    alloc: Global,
    entries: Vec<RecordEntry>,
    told: ToldLog,
    stage: Stage,
    failed: Log<u64, u64>,
}

impl Model for Tape {
    ghost use Rattle.std.specs.Prelude.{length};
    ghost use Rattle.mem_wire.specs.Told.{Played};
    ghost use Rattle.mem_wire.specs.Follows.{IsTape};

    ghost Value = { Played };

    ghost view = { λ t. record { recording = t.entries.items; told = t.told; faults = length t.failed.items } };

    ghost invariant = { λ t. IsTape t.entries.items t.stage t.told };
}

impl Tape {
    /// A tape at its beginning. Takes no memory.
    pub fn new(alloc: Global, entries: Vec<RecordEntry>) -> Self
        requires { IsPlayable entries.items }
        ensures { result ≡ record { recording = entries.items; told = Some []; faults = 0 } }
    {
        Tape {
            alloc,
            entries,
            told: ToldLog::new(alloc),
            stage: steps::new_stage(alloc),
            failed: Log::new(),
        }
    }

    /// The log so far, where it is told. It is a play of the recording.
    pub fn log(&self) -> Option<&[Entry]>
        ensures told { option_map (λ log. log.now) result ≡ self.now.told }
        ensures plays { (log : Told) → self.now.told ≡ Some log → IsPlay self.now.recording log }
    {
        self.told.told()
    }
}

impl Wire for Tape {
    ghost told = { λ tape. tape.told };

    ghost port_faults = { λ tape. 0 };

    ghost faults = { λ tape. tape.faults };

    ghost Rules = { List RecordEntry };

    ghost ruled_by = { λ tape. tape.recording };

    ghost takes = { takes };

    fn reserve(&mut self, _links: u32) -> Result<(), OutOfMemory> {
        Ok(())
    }

    fn listen(&mut self, port: Port, address: Address) -> Listened {
        add_call(
            &mut self.told,
            &self.stage.late,
            Entry::Listening { port, address },
        );
        self.stage.late.clear();
        Listened::Done
    }

    fn wait(&mut self, until_ms: u64) -> Woke {
        let rest = &self.entries[self.stage.cut..];
        let Some(now_ms) = first_moment(rest) else {
            add_call(&mut self.told, &self.stage.late, Entry::Over);
            self.stage.late.clear();
            return Woke::Over;
        };
        let lines = &rest[..lines_of_moment(rest)];
        add_marks(&mut self.told, &self.stage.late);
        put_marks(&mut self.told, &self.stage.opened, lines);
        self.told.add(Entry::Woke { until_ms, now_ms });
        if steps::wake(&mut self.stage, self.alloc, lines).is_err() {
            self.told.stop();
        }
        Woke::Woke { now_ms }
    }

    fn next_ready(&mut self) -> Option<LinkId> {
        add_marks(&mut self.told, &self.stage.late);
        match next_to_name(&mut self.stage) {
            None => {
                self.told.add(Entry::NoneNamed);
                self.stage.late.clear();
                None
            }
            Some(found) => {
                self.told.add(Entry::Named { link: found.link });
                steps::name(&mut self.stage, found.at);
                Some(found.link)
            }
        }
    }

    fn accept(&mut self, port: Port) -> Accepted {
        let Some(client) = steps::next_client(&self.stage, port) else {
            add_call(
                &mut self.told,
                &self.stage.late,
                Entry::AcceptNothing { port },
            );
            self.stage.late.clear();
            return Accepted::NotReady;
        };
        let id = steps::next_link(&self.stage);
        let salt = client.salt;
        add_call(
            &mut self.told,
            &self.stage.late,
            Entry::Accepted {
                port,
                link: id,
                salt,
            },
        );
        if steps::accept(&mut self.stage, self.alloc, port, client.number).is_err() {
            self.told.stop();
        }
        Accepted::Link { id, salt }
    }

    fn open(&mut self, server: ServerId, address: Address) -> Opened {
        let Ok(refused) = steps::ask_open(&mut self.stage, self.alloc, &self.entries) else {
            self.told.stop();
            self.failed = self.failed.and(&0, &0);
            return Opened::Failed;
        };
        if refused {
            add_call(
                &mut self.told,
                &self.stage.late,
                Entry::OpenFailed { server, address },
            );
            self.stage.late.clear();
            self.failed = self.failed.and(&0, &0);
            return Opened::Failed;
        }
        let id = steps::next_link(&self.stage);
        let entry = Entry::Opened {
            server,
            address,
            link: id,
        };
        add_call(&mut self.told, &self.stage.late, entry);
        if steps::open(&mut self.stage, self.alloc).is_err() {
            self.told.stop();
        }
        Opened::Link { id }
    }

    fn read(&mut self, link: LinkId, into: &mut [u8]) -> Got {
        add_marks(&mut self.told, &self.stage.late);
        let got = steps::read(&mut self.stage, link, into);
        self.told.add_if(read_entry(self.alloc, link, got, into));
        count_read(&mut self.failed, got);
        got
    }

    fn write(&mut self, link: LinkId, tag: Tag, piece: &[u8]) -> Took {
        add_marks(&mut self.told, &self.stage.late);
        let took = steps::write(&mut self.stage, link, piece.len());
        self.told
            .add_if(write_entry(self.alloc, link, tag, took, piece));
        count_write(&mut self.failed, took);
        took
    }

    fn close(&mut self, link: LinkId) {
        add_call(&mut self.told, &self.stage.late, Entry::Closed { link });
        steps::close(&mut self.stage, link);
    }
}

// The entry of a write, where there is memory for it.
fn write_entry(alloc: Global, link: LinkId, tag: Tag, took: Took, piece: &[u8]) -> Option<Entry>
    requires { TakesAtMost (length piece.now) took }
    ensures { IfSome result (λ e. e ≡ took_entry link tag piece.now took) }
{
    Some(match took {
        Took::Took { n } => {
            let bytes = Bytes::from_slice(alloc, &piece[..n]).ok()?;
            Entry::Wrote { link, tag, bytes }
        }
        Took::NotReady => Entry::WriteNothing { link },
        Took::Failed => Entry::WriteFailed { link },
    })
}

// Counts a read that failed.
fn count_read(failed: &mut Log<u64, u64>, got: Got)
    ensures { HasCause (got ≡ Got.Failed) (length failed.old.items) (length failed.new.items) }
{
    if let Got::Failed = got {
        *failed = failed.and(&0, &0);
    }
}

// Counts a write that failed.
fn count_write(failed: &mut Log<u64, u64>, took: Took)
    ensures { HasCause (took ≡ Took.Failed) (length failed.old.items) (length failed.new.items) }
{
    if let Took::Failed = took {
        *failed = failed.and(&0, &0);
    }
}
