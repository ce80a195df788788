// How many links may be open at a time, by the descriptors that the process may have.
use libc::types::rlimit;
use libc::{RLIMIT_NOFILE, getrlimit};

/// Descriptors that are kept for all else: the ports, the poll, standard streams, and what the process was started with.
const KEPT: u64 = 32;

/// What the system allows where it doesn't say.
const UNKNOWN: u64 = 1_024;

/// How many links may be open at a time (getrlimit(2), RLIMIT_NOFILE). The limit is asked once, as the process begins.
pub fn most_links() -> u64 {
    let mut limit = rlimit {
        rlim_cur: UNKNOWN,
        rlim_max: UNKNOWN,
    };
    let _ = getrlimit(RLIMIT_NOFILE, &mut limit);
    limit.rlim_cur.saturating_sub(KEPT)
}

/// Whether a client may be taken: with it each client can have a link to a server beside its own, so that no open lacks a descriptor.
pub fn has_room(most: u64, clients: u64, servers: u64) -> bool {
    let clients = clients.saturating_add(1);
    clients.saturating_add(servers.max(clients)) <= most
}
