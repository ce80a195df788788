//! What the promise that clients are kept apart refuses: routers that are wrong; and a log that keeps it.
#![tactic(auto)]

mod judged;
mod left_behind;
mod lent;
mod prepared;
mod told;
mod worked;
mod written;

pub use judged::{answers_ok_by_itself, sends_a_kill, sends_a_ping, sends_a_quit, sets_a_server};
pub use left_behind::{
    gives_back_before_it_asks, gives_back_behind_an_error, lends_with_another_insert_id,
    sends_before_it_asks,
};
pub use lent::{
    gives_back_what_is_held, gives_back_what_is_unreset, lends_in_another_schema,
    lends_what_is_held, lends_what_is_lent, lends_with_earlier_settings, reads_what_others_left,
    resets_what_goes_on, sends_as_another, sends_before_the_answer, sends_twice,
    sends_what_nobody_asked,
};
pub use prepared::{
    executes_in_another_schema, executes_what_isnt_there, prepares_another_text,
    prepares_in_another_schema,
};
pub use told::{
    gives_a_number_twice, logs_in_as_another, quotes_a_server, serves_others,
    tells_more_than_is_due, tells_other_bytes, writes_on_a_closed_link,
};
pub use worked::{can_be_kept_apart, kept_is_apart};
pub use written::{begins_behind_half_a_close, writes_other_bytes, writes_what_nobody_asked};
