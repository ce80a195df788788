//! What the words of the command line ask for: a configuration is judged, and served by over a wire; a recording is replayed and
//! printed; a file of statements is reported on; or a generated load is served and counted.
#![tactic(auto)]

mod load_words;
mod loading;
mod replay;
mod report_words;
mod reporting;
mod reports;
mod running;
mod serving;
mod stop;
mod words;

pub use running::{Status, run};
