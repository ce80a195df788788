//! What places and statements go by in a table of numbers: bytes that are equal only where the places are, and a text with the number of
//! its place. So 'the same place' is one comparison of numbers.
#![tactic(auto)]

mod key;
mod laws;

pub use key::{StatementKey, place_key};
pub use laws::places_apart;
