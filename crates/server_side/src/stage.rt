// How far a login to a server is.

/// How far a login to a server is (client/server protocol, "Connection Phase").
#[derive(Clone, Copy, Debug, PartialEq, Eq)]
pub enum Stage {
    /// The greeting is due.
    Greeting,
    /// The response is said, and an OK, an ERR or a request to switch the login method is due.
    Welcome,
    /// The bare answer to such a request is said, and an OK or an ERR is due.
    Switched,
    /// The router is logged in.
    In,
    /// Bytes came that may not, and no more is heard.
    Lost,
}
