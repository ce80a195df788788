// What is known of a client as its message comes up.
use mx_base::{Bytes, ClientNo, Hostgroup};
use pin_classifier::Class;
use session_state::Place;

/// A client that is logged in.
#[derive(Drop)]
pub struct Caller {
    pub number: ClientNo,
    pub user: Bytes,
    /// Where its statements go where nothing else says so.
    pub home: Hostgroup,
    pub place: Place,
    /// The flag with which the rules begin: 0, until a rule's `next_query_flagIN` sets another.
    pub flag: u16,
    /// The hostgroup of its last statement that was to go to a server.
    pub last: Option<Hostgroup>,
}

/// How its sessions stand: the hostgroup of its open transaction, and the number of the next statement that it prepares, None where it may
/// have no more.
#[derive(Clone, Copy)]
pub struct Standing {
    pub transaction: Option<Hostgroup>,
    pub next_number: Option<u32>,
}

/// A statement that it prepared: its text, the schema and settings of its preparation, how many parameters it has, whether types of each were
/// bound, where its preparation went, what a rule said of sharing the link, and the class of its text.
#[derive(Drop)]
pub struct Prepared {
    pub text: Bytes,
    pub place: Place,
    pub params: u16,
    pub bound: bool,
    pub hostgroup: Hostgroup,
    pub multiplex: Option<bool>,
    pub class: Class,
}
