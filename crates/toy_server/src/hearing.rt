// What a server in code does with what it is told on a connection.
ghost use Rattle.std.specs.Prelude.{◌≡◌, OnOk};
ghost use Rattle.toy_server.specs.Talks.{heard};

use mx_base::OutOfMemory;
use scripted_wire::{Hosts, ServerLink};
use server_rule::TameServer;
use std::alloc::Global;
use std::io::{self, ErrorKind};

// The server is told a piece, and does what it was told whole by then, one after the other, until nothing is left.
fn hear<R: TameServer>(
    alloc: Global,
    link: &mut ServerLink,
    hosts: &mut Hosts<R>,
    piece: &[u8],
) -> Result<(), OutOfMemory>
    ensures { OnOk result (record { link = link.new; hosted = hosts.new } ≡ heard R.step piece.now (record { link = link.old; hosted = hosts.old })) }
{
    link.hear(piece)?;
    for _turn in 0..u64::MAX {
        let did = link.serve(alloc, hosts, false)?;
        if !did.is_work() {
            return Ok(());
        }
    }
    Ok(())
}

/// The same, where want of memory is a fault of the connection.
pub(crate) fn tell<R: TameServer>(
    alloc: Global,
    link: &mut ServerLink,
    hosts: &mut Hosts<R>,
    piece: &[u8],
) -> io::Result<()>
    ensures { OnOk result (record { link = link.new; hosted = hosts.new } ≡ heard R.step piece.now (record { link = link.old; hosted = hosts.old })) }
{
    match hear(alloc, link, hosts, piece) {
        Ok(()) => Ok(()),
        Err(OutOfMemory) => Err(io::Error::from(ErrorKind::OutOfMemory)),
    }
}
