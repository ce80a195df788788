//! A small SQL server in memory that keeps the ten laws of a tame server.
#![tactic(auto)]

mod answer;
mod column;
mod did;
mod fault;
mod form;
mod lawful_server;
mod note;
mod outcome;
mod prepare;
mod said;
mod scene;
mod server;
mod statement;
mod store;
mod table;

pub use form::{Values, form_of};
pub use server::MemServer;
