//! What the clients of a generated load are due, by its log alone: their statements run in sessions of their own over one server in memory,
//! in the order in which the log says that they ran.
#![tactic(auto)]

mod client;
mod link;
mod packets;
mod walking;

pub use client::Client;
pub use walking::{Walked, walk};
