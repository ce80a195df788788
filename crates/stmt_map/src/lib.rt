//! Prepared statements: a client's by their numbers, and those of a link to a server by what they are.
#![tactic(auto)]

mod client;
mod link;
mod long;
mod statement;

pub use client::ClientStatements;
pub use link::LinkStatements;
pub use long::{LongData, LongFault};
pub use statement::{AddFault, Prepared, Statement};
