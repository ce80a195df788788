// How far a client is.
use server_side::Account;

/// How far a client is (client/server protocol, "Connection Lifecycle").
#[derive(Drop)]
pub enum Phase {
    /// It isn't logged in.
    LoggingIn,
    /// It is served as this user.
    Serving(Account),
    /// No more is read of it.
    Ended,
}
