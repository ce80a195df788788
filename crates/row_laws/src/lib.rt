//! What a router keeps of a link to a server stands for the link in the law's tale: what goes there next is the law's wish, and so it is at
//! each thing that happens there.
#![tactic(auto)]

mod readied;
mod reads;
mod standing;
mod wishes;
mod writes;

pub use readied::{
    ends_are_readied, others_are_spelt, preparations_are_readied, statements_are_readied,
    steps_are_readied,
};
pub use reads::{reads_are_uses, rows_enter, rows_hear};
pub use standing::{
    others_are_spared, rows_are_freed, rows_are_left, rows_are_lost, rows_open, rows_run_unseen,
    rows_stay,
};
pub use wishes::{tasks_are_laws, wishes_are_laws};
pub use writes::{
    rows_begin, rows_may_begin, rows_say, rows_take_back, rows_take_next, rows_write_on,
};
