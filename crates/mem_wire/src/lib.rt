//! The outside in memory: a wire that plays a recording and tells its log, files, and a sink.
#![tactic(auto)]

mod adding;
mod calls;
mod ending;
mod late;
mod lines;
mod marks;
mod mem_files;
mod mem_sink;
mod naming;
mod refusals;
mod room;
mod stage;
mod steps;
mod tape;
mod track;
mod tracks;
mod turns;
mod waiting;

pub use mem_files::MemFiles;
pub use mem_sink::MemSink;
pub use tape::Tape;
pub use waiting::Waiting;
