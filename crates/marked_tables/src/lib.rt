//! The core's tables, with marks of the links at which the loop has to look again: all that changes clients and links does it here.
#![tactic(auto)]

mod clients;
mod coming;
mod homes;
mod links;
mod marked;
mod preparing;
mod reading;
mod readying;
mod rows;
mod taking;
mod touching;

pub use marked::MarkedTables;
