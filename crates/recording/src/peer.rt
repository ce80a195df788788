// The peer of a link in a transcript.
ghost use Rattle.std.specs.Prelude.{◌≡◌, ◌++◌, OnOk, decimal, codes};
ghost use Rattle.recording.specs.Transcript.{name, title};

use crate::text::put_decimal;
use mx_base::{Bytes, OutOfMemory, Port, ServerId};

/// The peer of a link: the n-th client, or the k-th server link, both counted from 1.
#[derive(Clone, Copy)]
pub(crate) enum Peer {
    Client { n: u64, port: Port },
    Server { k: u64, server: ServerId },
}

impl Peer {
    pub(crate) fn put_name(self, out: &mut Bytes) -> Result<(), OutOfMemory>
        ensures { OnOk result (out.new ≡ out.old ++ name self) }
    {
        match self {
            Peer::Client { n, .. } => {
                out.append(b"c")?;
                put_decimal(out, n)
            }
            Peer::Server { k, .. } => {
                out.append(b"s")?;
                put_decimal(out, k)
            }
        }
    }

    pub(crate) fn put_title(self, out: &mut Bytes) -> Result<(), OutOfMemory>
        ensures { OnOk result (out.new ≡ out.old ++ title self) }
    {
        self.put_name(out)?;
        match self {
            Peer::Client {
                port: Port::Traffic,
                ..
            } => out.append(b" traffic"),
            Peer::Client {
                port: Port::Admin,
                ..
            } => out.append(b" admin"),
            Peer::Server { server, .. } => {
                out.append(b" server ")?;
                put_decimal(out, u64::from(server.0))
            }
        }
    }
}
