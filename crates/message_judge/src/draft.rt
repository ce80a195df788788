// What becomes of a message.
use crate::told::Told;
use mx_base::{Bytes, Hostgroup};
use pin_classifier::Class;

/// The class of what goes to a server.
#[derive(Drop)]
pub enum ClassOf {
    /// It has no text: the choice of a schema, or the question for a table's columns.
    Nothing,
    /// That of its text, as rules rewrite it.
    Own(Class),
    /// That of the prepared statement.
    Prepared,
}

/// Where a message goes, its text as rules rewrite it, the number by which the client knows what it prepares, and what a rule says of
/// sharing the link.
#[derive(Drop)]
pub struct Going {
    pub hostgroup: Hostgroup,
    pub text: Option<Bytes>,
    pub number: Option<u32>,
    pub multiplex: Option<bool>,
    pub class: ClassOf,
}

/// What becomes of a message.
#[derive(Drop)]
pub enum Draft {
    /// The client ends.
    Ends,
    Answers(Told),
    /// It goes to a server, where `admit` lets it.
    Sends(Going),
}

/// What becomes of a message, and the flag with which the rules begin behind it.
#[derive(Drop)]
pub struct Judged {
    pub draft: Draft,
    pub flag: u16,
}
