//! What is to be read and written by what the core keeps of its clients and links; which links a change there concerns, and marks of those.
#![tactic(auto)]

mod concerns;
mod marking;

pub use concerns::{changes_concern, quieter_goes_on};
pub use marking::{mark_at, mark_row};
