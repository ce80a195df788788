//! A link to a server behind the router's login: one command at a time, and the reply to it in pieces, as they come, of which
//! nothing is kept.
#![tactic(auto)]

mod asked;
mod cell;
mod laws;
mod relay;

pub use asked::{Asked, Replying, Wanted};
pub use cell::{OneCell, Spot};
pub use laws::{cells_are_read, pieces_are_read_as_one, pieces_are_the_reply, replies_begin};
pub use relay::{Relay, Relayed};
