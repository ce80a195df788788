//! Cases as lines of text, for programs that show what the router's calls answer: a line has the name of a reader and
//! fields, `<reader> <field> <field> ..`, and for each line of stdin a line of stdout has the answer. An empty line, or
//! one that begins with `#`, is copied as it is, so that both read as a table.
#![tactic(auto)]

mod answer;
mod case;
mod fault;
mod field;
mod fields;
mod runner;

pub use answer::Answer;
pub use case::Case;
pub use fault::CaseFault;
pub use field::{MOST_BYTES, bytes_of};
pub use fields::Fields;
pub use runner::run;
