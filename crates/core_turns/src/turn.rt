// What becomes of a client as it is looked at.

use mx_base::Hostgroup;

/// Why nothing more of a client is taken up.
#[derive(Clone, Copy)]
pub enum Stop {
    /// The insert id of its session is to be asked for first.
    Waits,
    /// Nothing is up.
    Rests,
    /// Its login is denied, or its bytes are no messages. It was told so, and is to leave.
    Ends,
    /// It says that it quits, and is to leave. Rules would be tried first by this flag.
    Quits { flag: u16 },
}

/// What becomes of a client as it is looked at.
#[derive(Clone, Copy)]
pub enum Turn {
    Stops(Stop),
    /// The router answered its message.
    Answered,
    /// A statement of it became due, which goes to this hostgroup.
    Due { hostgroup: Hostgroup },
}

/// What became of a client that goes on: where its statement is to go that became due, and why nothing more of it is taken up.
#[derive(Clone, Copy)]
pub struct Went {
    pub due: Option<Hostgroup>,
    pub stop: Stop,
}
