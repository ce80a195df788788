// A connection from its begin to its end.
ghost use Rattle.std.specs.Prelude.{◌≡◌, OnOk};
ghost use Rattle.std.specs.Io.KnownBytes.{Appends};
ghost use Rattle.toy_server.specs.Talks.{IsTalk, IsAfter, all_said, begun, emptied};

use crate::hearing::tell;
use mx_base::{ClientNo, OutOfMemory};
use scripted_wire::{Hosts, LetsIn, ServerLink, salt_of};
use server_rule::TameServer;
use std::alloc::Global;
use std::io::{self, ErrorKind, Read, Write};

/// How many bytes are read at once, at most.
const MOST_READ: usize = 4_096;

fn refused(_: OutOfMemory) -> io::Error {
    io::Error::from(ErrorKind::OutOfMemory)
}

// What the server has said is written.
fn say<O: Write>(link: &mut ServerLink, output: &mut O) -> io::Result<()>
    ensures link { OnOk result (link.new ≡ emptied link.old) }
    ensures said { OnOk result (Appends (O.contents output.old) (O.contents output.new) link.old.client.outgoing) }
{
    let bytes = link.client.outgoing();
    let count = bytes.len();
    output.write_all(bytes)?;
    link.client.taken(count);
    Ok(())
}

// The server is told what is read and its words are written, until one of both ends.
fn exchange<R: TameServer, I: Read, O: Write>(
    alloc: Global,
    link: &mut ServerLink,
    hosts: &mut Hosts<R>,
    input: &mut I,
    output: &mut O,
) -> io::Result<()>
    ensures { OnOk result (IsAfter (all_said R.step (begun link.old hosts.old)) (I.remaining input.old) (I.remaining input.new) (O.contents output.old) (O.contents output.new) link.new hosts.new) }
{
    let mut buffer = [0u8; MOST_READ];
    for _turn in 0..u64::MAX {
        say(link, output)?;
        if link.ended {
            return Ok(());
        }
        let count = input.read(&mut buffer)?;
        if count == 0 {
            return Ok(());
        }
        tell(alloc, link, hosts, &buffer[..count])?;
    }
    say(link, output)
}

/// Serves a connection to the first of the servers until one of both ends it. The server lets in who answers its salt with nothing, and
/// what it answers is what it does with what is read. Behind an Err nothing is promised but that the session is closed where
/// memory wasn't refused.
pub fn serve_connection<R: TameServer, I: Read, O: Write>(
    alloc: Global,
    number: ClientNo,
    hosts: &mut Hosts<R>,
    input: &mut I,
    output: &mut O,
) -> io::Result<()>
    ensures { OnOk result (IsTalk R.step number hosts.old (I.remaining input.old) (I.remaining input.new) (O.contents output.old) (O.contents output.new) hosts.new) }
{
    let salt = salt_of(number.0);
    let mut link = ServerLink::new(alloc, LetsIn::WithoutPassword, 0, number, salt).map_err(
        refused,
    )?;
    let said = exchange(alloc, &mut link, hosts, input, output);
    let _did = link.serve(alloc, hosts, true).map_err(refused)?;
    said
}
