// What an entry of the log makes of the tables: they stand for the tale of the log with it.

mod cores;
mod dues;
mod entries;
mod grows;
mod kinds;
mod loops;
mod safe;
mod says;

pub use cores::{
    all_are_heard, cores_go_on, first_core, lawful_unbroken, logs_go_on, writes_go_on,
};
pub use dues::{dues_are_written, dues_go_on, dues_grow, others_are_due_more};
pub use entries::{
    entries_of_nobody, entries_of_one, entries_rest, others_keep_calm, others_keep_seats,
    overs_go_on,
};
pub use grows::{decisions_grow, decisions_wait, replies_stay};
pub use kinds::{
    arrivals_rest, counts_alone, counts_rest, entries_of_a_link, entries_of_a_speaker,
    links_are_given_back, marks_rest, other_links_rest, quiet_entries_rest, writes_to_clients_rest,
};
pub use loops::messages_are_taken;
pub use safe::{core_is_private, safe_goes_on, safe_is_private};
pub use says::{all_say_so, closes_come_first, links_say};
