//! The router's core over shared links, as the loop tells it of events: each is told to the tables and goes through in a fixed order. What is
//! chosen in it is the policy's.
#![tactic(auto)]

mod administering;
mod arriving;
mod came;
mod closing;
mod following;
mod giving;
mod hearing;
mod leaving;
mod losing;
mod machine;
mod needing;
mod noting;
mod opening;
mod parting;
mod preparing;
mod roomy;
mod router;
mod rows;
mod settling;
mod telling;
mod texts;
mod waking;
mod whole;
mod writing;

pub use crate::roomy::Roomy;
pub use crate::router::Router;
pub use whole::Core;
