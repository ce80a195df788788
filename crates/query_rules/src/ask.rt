// What is asked of the rules, and what they say.
use mx_base::{Bytes, Hostgroup};

/// A text of a client, and whose it is.
#[derive(Drop)]
pub struct Ask {
    pub user: Bytes,
    pub schema: Bytes,
    /// The session's flag: 0, until a rule's `next_query_flagIN` sets another.
    pub flag: u16,
    /// The text as received.
    pub text: Bytes,
    /// Where the text goes where no rule says so.
    pub default_hostgroup: Hostgroup,
}

/// What is answered in place of running a text.
#[derive(Debug, Drop)]
pub enum Stop {
    /// An error with this text.
    Error(Bytes),
    /// An OK with this message.
    Ok(Bytes),
}

/// What the rules say of a text.
#[derive(Debug, Drop)]
pub struct Routed {
    pub hostgroup: Hostgroup,
    /// The text as rewritten.
    pub text: Bytes,
    /// The session's flag from now on, None where it stays as it is.
    pub next_flag: Option<u16>,
    /// Whether the session may share its connection from now on, None where no rule says so.
    pub multiplex: Option<bool>,
    /// None where the text is to run.
    pub stop: Option<Stop>,
}
