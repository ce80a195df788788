// Servers in memory, and the turns of a private world.
mod bound;
mod parts;
mod payload;
mod reply;
mod seat;
mod stage;
mod turns;
mod verb;

pub use stage::run_steps;
pub use turns::take_turns;
