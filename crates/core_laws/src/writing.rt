// What goes to links to servers next, and as it is written: the tables stand for the tale.

mod beginning;
mod opening;
mod passing;
mod writing;

pub use beginning::{
    next_is_taken_back, others_begin, preps_begin, runs_begin, step_begins, text_begins,
};
pub use opening::{links_open, marks_stay};
pub use passing::passes_may_tell;
pub use writing::writes_stand;
