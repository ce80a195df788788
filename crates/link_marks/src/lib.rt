//! The links that are open, and which of them a loop has to look at again.
#![tactic(auto)]

mod marks;

pub use marks::Marks;
