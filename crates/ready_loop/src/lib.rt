//! The loop that tells a machine what a wire answers, and does what the machine asks.
#![tactic(auto)]

mod acts;
mod calls;
mod ends;
mod heard;
mod links;
mod machines;
mod round;
mod serving;
mod table;

pub use ends::ServeEnd;
pub use machines::{Act, Event, Machine};
pub use serving::serve;
