//! A wire in memory between clients that follow scripts and servers in code: it tells its log, and the calls that are to fail
//! are listed.
#![tactic(auto)]

mod asked;
mod calls;
mod course;
mod did;
mod giving;
mod hosts;
mod link;
mod salt;
mod script;
mod scripted;
mod scripted_client;
mod server_link;
mod stage;
mod waiting;

pub use did::Did;
pub use hosts::Hosts;
pub use salt::salt_of;
pub use script::Script;
pub use scripted::Scripted;
pub use server_link::{LetsIn, ServerLink};
