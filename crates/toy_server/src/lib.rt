//! A server in code on real connections, one after the other.
#![tactic(auto)]

mod connection;
mod hearing;
mod port;

pub use connection::serve_connection;
pub use port::serve_port;
