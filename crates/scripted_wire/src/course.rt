// How a client goes on.

/// How a client goes on.
#[derive(Clone, Copy)]
pub(crate) enum Course {
    /// It says the rest of its script.
    Talks,
    /// It has said COM_QUIT, and ends its link behind that.
    Quits,
    /// It was refused, or heard what no login and no reply goes on with. It ends its link at once.
    Lost,
}
