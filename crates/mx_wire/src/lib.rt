//! The outside as the router sees it: a wire whose calls are the entries of one log, files, and a sink for
//! what is printed.
#![tactic(auto)]

mod entry;
mod files;
mod sink;
mod told_log;
mod wire;

pub use entry::Entry;
pub use files::{FileFault, Files};
pub use sink::{Sink, SinkFailed};
pub use told_log::{ToldLog, read_entry};
pub use wire::{Accepted, Got, Listened, Opened, Took, Wire, Woke};
