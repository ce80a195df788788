//! The link to one server: the router's login, and behind it one command at a time and the whole reply to it, out of bytes
//! that come in pieces.
#![tactic(auto)]

mod account;
mod backend;
mod command;
mod fault;
mod hear;
mod payloads;
mod replying;
mod stage;

pub use account::Account;
pub use backend::Backend;
pub use command::Command;
pub use fault::BackendFault;
pub use hear::Heard;
pub use stage::Stage;
