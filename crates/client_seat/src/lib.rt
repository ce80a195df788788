//! One client of a router that shares links: its login, its messages in order, what it has prepared and where it stands,
//! and what is to be written to it. What becomes of a message is its caller's to decide.
#![tactic(auto)]

mod answer;
mod arguments;
mod bytes;
mod laws;
mod next;
mod noting;
mod outbox;
mod phase;
mod place;
mod request;
mod seat;
mod taking;
mod word;

pub use arguments::Args;
pub use laws::{numbers_go_on, seats_hear, seats_log_in, seats_owe, seats_prepare};
pub use next::Next;
pub use outbox::Outbox;
pub use phase::Phase;
pub use place::{first_place, move_place};
pub use request::Request;
pub use seat::Seat;
