// The shapes of SET statements.
use crate::Changes;

/// What a statement is, as a SET statement (MySQL Reference Manual, "SET Syntax for Variable Assignment").
#[derive(Drop)]
pub enum SetShape {
    /// It changes these settings of the session, in this order, and nothing else.
    Tracked(Changes),
    /// It sets something of the whole server.
    Global,
    /// It sets the characteristics of the next transaction.
    NextTransaction,
    /// A SET statement of any other kind.
    Other,
    /// No SET statement.
    NotSet,
}
