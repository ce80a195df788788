//! The configuration file: a TOML document of the tables `proxy`, `users`, `servers`, `rules` and `whitelist`.
#![tactic(auto)]

mod address;
mod config;
mod fault;
mod lists;
mod proxy;
mod read;
mod row;
mod rules;
mod servers;
mod table;
mod users;
mod value;

pub use config::{Config, ProxyRow, UserRow};
pub use fault::{ConfigFault, ConfigRefusal};
pub use read::read_config;
