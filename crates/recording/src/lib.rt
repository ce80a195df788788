//! Recordings of what a wire is to answer, and transcripts of what was written on it.
#![tactic(auto)]

mod arrivals;
mod ended;
mod entry;
mod fault;
mod fields;
mod line;
mod link_text;
mod log_text;
mod peer;
mod places;
mod progress;
mod read;
mod text;
mod word;

pub use entry::{RecordEntry, RecordLink};
pub use fault::{RecordFault, RecordRefusal};
pub use line::spelled_lines;
pub use log_text::{longest_runs, transcript};
pub use read::read_recording;
