//! A client of a router that shares links: its seat, its present session in each hostgroup, and its statement in work.
#![tactic(auto)]

mod answers;
mod desk;
mod hearing;
mod session;
mod sessions;
mod transaction;
mod work;

pub use desk::Desk;
pub use session::{Parted, Session};
pub use sessions::Sessions;
pub use work::{Body, Work, outlasts};
