//! The link of one client: its login, and behind it the messages, out of bytes that come in pieces; and the bytes that
//! are to be written to it.
#![tactic(auto)]

mod client;
mod greeting;
mod next;
mod stage;
mod step;

pub use client::{Client, login_limit};
pub use stage::Stage;
pub use step::{ClientFault, ClientStep};
