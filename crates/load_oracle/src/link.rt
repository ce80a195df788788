// Links to servers.
use mx_base::{ClientNo, LinkId};
use server_rule::Session;

/// What a link to a server was asked last, where that didn't run yet.
#[derive(Clone, Copy)]
pub(crate) enum Asked {
    /// Nothing of a client's own: a step, or what the router asks by itself.
    Own,
    /// The message of this place.
    Message { ordinal: u64 },
    /// To reset the session that was left.
    Reset,
}

/// A link to a server, whose session it carries, and that session itself once the router has closed the link.
#[derive(Drop)]
pub(crate) struct Link {
    pub link: LinkId,
    pub client: ClientNo,
    pub asked: Asked,
    pub lost: Option<Session>,
}
