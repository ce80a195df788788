//! Slots that are kept by age, each of a kind: the oldest and the newest of all and of each kind, in one step.
#![tactic(auto)]

mod aged;

pub use aged::SlotsByAge;
