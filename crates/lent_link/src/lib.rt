//! A link to a server: the router's login, what is written there and what is read, over pieces of any length, and behind the login what
//! stands on the link.
#![tactic(auto)]

mod hearing;
mod laws;
mod link;
mod reading;
mod resting;

pub use laws::{pieces_are_one, wishes_are_taken_back};
pub use link::{Begins, LentLink, Step};
pub use reading::{Reading, Took};
