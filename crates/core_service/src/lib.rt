//! What the core over shared links serves by, and why it gives statements up.
#![tactic(auto)]

mod failure;
mod service;

pub use failure::{Failure, payload_of};
pub use service::{Service, UserAt};
