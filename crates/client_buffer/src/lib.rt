//! What is to be written to a client: how much of it there may be, and the room behind it for the error that ends the link.
#![tactic(auto)]

mod outgoing;

pub use outgoing::{HIGH_MARK, Outgoing};
