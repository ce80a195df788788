//! The class of a statement: what it does to the session in which it runs, and what it reads there.
#![tactic(auto)]

mod calls;
mod class;
mod diagnostics;
mod judge;
mod judged;
mod laws;
mod marks;
mod opened;
mod opening;
mod recent;
mod seen;
mod shape;
mod starts;
mod variables;
mod word_list;
mod words;

pub use class::{Class, ClassName, Locking, Refusal, Shape};
pub use judge::classify;
pub use laws::{call_stands, release_stands, shape_of_set};
