//! What the core over shared links promises of clients' sessions: that no client sees another's.
#![tactic(auto)]

mod administering;
mod asking;
mod ending;
mod giving;
mod judging;
mod sessions;
mod waiting;

pub use administering::{
    changes_its_rules, forces_what_wasnt_loaded, judges_by_other_rules, loads_other_rules,
    shows_what_wasnt_staged, stages_what_it_refused,
};
pub use asking::{asks_other_texts, copies_a_message, rewrites_without_rules};
pub use ending::{
    ends_at_any_time, ends_for_anothers_bytes, ends_whom_it_serves, ends_with_anothers_link,
};
pub use giving::{
    answers_what_it_sends, gives_up_at_any_time, gives_up_for_anothers_link, gives_up_too_soon,
    gives_up_without_a_loss,
};
pub use judging::{
    answers_a_choice, answers_a_ping_otherwise, answers_for_a_server, answers_nothing,
    forgets_what_was_prepared, gives_a_number_again, goes_elsewhere, goes_past_a_rule,
    goes_past_a_rule_of_its_user, leaves_its_transaction, runs_elsewhere, runs_what_wasnt_prepared,
    sends_another_command, sends_for_an_administrator, sends_what_is_refused,
    situations_are_promised, verdicts_ask, verdicts_give_new_numbers, verdicts_go_home,
    verdicts_run_what_was_prepared, verdicts_stay_in_transactions,
};
pub use sessions::{apart_is_private, cores_keep_apart};
pub use waiting::{
    forgets_a_statement, leaves_a_link_unnamed, leaves_a_message_unanswered, leaves_a_port_unasked,
    leaves_a_reply_unread, leaves_bytes_unread, leaves_bytes_unwritten, stops_halfway,
    takes_another_for_it,
};
