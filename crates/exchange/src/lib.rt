//! What passes on the links to servers: the router's login there, the commands, and the replies to them. Definitions, and laws that the
//! replies are the manual's.
#![tactic(auto)]

mod laws;

pub use laws::{one_way_to_hear, replies_are_the_manuals};
