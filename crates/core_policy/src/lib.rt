//! What the router over shared links chooses: who waits for which link, which link is lent, opened and closed, and which statements are given
//! up. It looks at the core's tables, and changes none.
#![tactic(auto)]

mod asks;
mod board;
mod clients;
mod counting;
mod deed;
mod events;
mod hearing;
mod keys;
mod lending;
mod line;
mod links;
mod logins;
mod looking;
mod losing;
mod measure;
mod parts;
mod policy;
mod reloading;
mod shown;
mod shutting;
mod slots;
mod steps;
mod todo;
mod verdict;
mod waiting;
mod waking;

pub use asks::{Asked, Asks};
pub use board::{Board, Counts};
pub use deed::Deed;
pub use events::{Event, Events};
pub use links::Login;
pub use policy::Policy;
pub use shown::Shown;
pub use verdict::{GiveUp, Verdict};
