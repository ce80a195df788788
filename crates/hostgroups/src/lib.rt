//! The servers that the proxy knows, each of one hostgroup, by number; their states, and which of them is picked.
#![tactic(auto)]

mod dealing;
mod fault;
mod laws;
mod numbered;
mod numbers;
mod reload;
mod round;
mod rounds;
mod row;
mod server;
mod servers;

pub use fault::ServersFault;
pub use laws::{full_round, heaviest_apart, not_twice, numbers_stay};
pub use numbers::ServerNumbers;
pub use row::{ServerName, ServerRow, ServerStatus};
pub use servers::Servers;
