//! Lists of slots, kept in one piece of memory: a slot stands in one of them, in the order of its moment.
#![tactic(auto)]

mod lists;

pub use lists::SlotLists;
