//! The wire of the operating system: ports and links are TCP sockets that never wait, and one poll waits for all of them.
#![tactic(auto)]

mod door;
mod keepalive;
mod room;
mod salt;
mod socket;
mod sockets;
mod wire;

pub use wire::MioWire;
