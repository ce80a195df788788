// The links that came, counted.
ghost use Rattle.std.specs.Prelude.{◌≡◌, ◌+◌, ◌<◌, ◌^◌};
ghost use Rattle.recording.specs.Arrivals.{counted, arrival};

use crate::peer::Peer;
use mx_base::LinkId;
use mx_wire::Entry;

/// How many clients' links and links to servers have come.
#[derive(Clone, Copy)]
pub(crate) struct Arrivals {
    pub(crate) clients: u64,
    pub(crate) servers: u64,
}

impl Arrivals {
    /// Counts the link that comes in the entry, if one does, and says whose it is.
    pub(crate) fn next(&mut self, entry: &Entry) -> Option<(Peer, LinkId)>
        requires clients { self.old.clients + 1 < 2 ^ 64 }
        requires servers { self.old.servers + 1 < 2 ^ 64 }
        ensures peer { result ≡ arrival self.old entry.now }
        ensures counted { self.new ≡ counted self.old entry.now }
    {
        match entry {
            Entry::Accepted { port, link, .. } => {
                self.clients += 1;
                let n = self.clients;
                Some((Peer::Client { n, port: *port }, *link))
            }
            Entry::Opened { server, link, .. } => {
                self.servers += 1;
                let k = self.servers;
                Some((Peer::Server { k, server: *server }, *link))
            }
            _ => None,
        }
    }
}
