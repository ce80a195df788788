//! Numbers for equal keys: whoever holds a key has its number, equal keys have one, and a number is given again only once nobody
//! holds it. So whether two things are the same is one comparison of numbers.
#![tactic(auto)]

mod fault;
mod held;
mod order;
mod table;

pub use fault::TakeFault;
pub use held::Held;
pub use table::NumberTable;
