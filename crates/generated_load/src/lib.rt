//! A generated load: what its clients say, the configuration by which they are served, the server that they find, and what is counted of
//! the log.
#![tactic(auto)]

mod ask;
mod config;
mod counts;
mod draw;
mod kind;
mod replies;
mod server;
mod talk;
mod text;

pub use ask::LoadAsk;
pub use config::load_config;
pub use counts::{Counts, count};
pub use draw::{below, next};
pub use server::{first_session, load_server};
pub use talk::load_scripts;
pub use text::load_text;
