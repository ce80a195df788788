//! What a server is to the router, and what is asked of one: ten laws of what commands do to its data and to the
//! sessions of its connections.
#![tactic(auto)]

mod command;
mod session;
mod tame;

pub use command::{Cmd, LongParts, Reply, ReplyList};
pub use session::{Capabilities, Session};
pub use tame::TameServer;
