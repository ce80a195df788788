//! Runs sessions of clients' own, as the private world says, over any tame server.
#![tactic(auto)]

mod own;
mod prepared;
mod world;

pub use own::Own;
pub use prepared::Prepared;
pub use world::{Statement, Who, World};
