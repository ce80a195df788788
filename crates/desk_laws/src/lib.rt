//! What a client's desk has stands for what a story makes of its client: at each thing that happens, with the desk's call, and where it
//! happens to others.
#![tactic(auto)]

mod answers;
mod others;
mod questions;
mod sessions;
mod works;

pub use answers::{answers_stand, steps_are_heard};
pub use others::{coming_stays, others_stay, parted_stays, strangers_stay};
pub use questions::{due_stands, lent_stands, outlasts_as_said, sent_stands};
pub use sessions::{
    anew_stands, first_stands, freed_stands, gone_stands, homes_have_rows, left_stands,
    parted_stands, present_stands,
};
pub use works::{given_up_stands, new_stands, seats_stand, taken_stands};
