//! Ends of replies: follows the bytes of a server's reply, in whatever pieces they come, to the reply's end, and
//! renumbers its packets for the client.
#![tactic(auto)]

mod body;
mod due;
mod head;
mod laws;
mod place;
mod reply;
mod tracker;

pub use laws::one_end;
pub use reply::{EndKind, Progress, ReplyEnd, ReplyKind};
pub use tracker::Tracker;
