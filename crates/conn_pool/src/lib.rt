//! Links to servers that clients share: which one is lent, which one is closed, and who waits for one. Links, clients, keys, places and
//! servers are numbers here, below bounds that are given at the start; all memory is taken then.
#![tactic(auto)]

mod idle;
mod laws;
mod lendable;
mod pool;
mod shelf;
mod sizes;

pub use laws::lends_its_key;
pub use pool::Pool;
pub use shelf::Shelf;
pub use sizes::Sizes;
