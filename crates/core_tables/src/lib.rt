//! What the router's core keeps of its clients and of its links to servers, and what each thing that happens makes of that.
#![tactic(auto)]

mod arrivals;
mod beginning;
mod client;
mod handing;
mod hearing;
mod leaving;
mod lending;
mod noting;
mod parting;
mod placing;
mod preparing;
mod said;
mod server;
mod tables;
mod taking;
mod wording;
mod writing;

pub use client::{Client, ClientNote};
pub use said::Said;
pub use server::Server;
pub use tables::Tables;
