//! A client's messages are taken up one by one: what becomes of each, and how that ends.
#![tactic(auto)]

mod administering;
mod administrator;
mod answering;
mod judged;
mod leaving;
mod looking;
mod onward;
mod preparing;
mod sending;
mod taking;
mod turn;

pub use administrator::Administrator;
pub use leaving::{leave, take_turns};
pub use onward::go_on;
pub use taking::take_next;
pub use turn::{Stop, Turn, Went};
