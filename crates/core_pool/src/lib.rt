//! The pool, and slots by age, as the core uses them: what is beyond their bounds is passed over.
#![tactic(auto)]

mod ages;
mod berths;

pub use ages::Ages;
pub use berths::Berths;
