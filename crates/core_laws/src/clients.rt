// Entries of clients: the tables stand for the tale of the log with them, and rest.

mod follows;
mod speaks;
mod told;
mod turns;

pub use follows::{follows_find, follows_keep, follows_rest};
pub use speaks::speaks_rest;
pub use told::{rests_are_unfaulty, told_stands};
pub use turns::{turns_find, turns_stand};
