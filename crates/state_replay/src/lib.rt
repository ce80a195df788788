//! What is said on a link before a statement, so that it runs as in a session of its own: the next step, by what the link was told and
//! what is wanted. It is asked for anew after each answer, so nothing is remembered of what was meant, and a step that failed shows by
//! itself.
#![tactic(auto)]

mod calm;
mod next;
mod step;

pub use next::{after, next_step, preparation_step};
pub use step::Step;
