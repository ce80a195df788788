// Entries of links to servers: the tables stand for the tale of the log with them, and rest.

mod carried;
mod freed;
mod nobodys;
mod reading;

pub use carried::{carried_go_on, carried_rest};
pub use freed::{losses_stand, reads_stand};
pub use nobodys::{opens_rest, writes_rest};
pub use reading::{reads_are_of_one, reads_rest};
