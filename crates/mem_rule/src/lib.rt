//! What a small SQL server in memory is: its statements, what each does to the data and to its session, the step of it as
//! one definition, and that this keeps the ten laws of a tame server. The code of the server is another crate.
#![tactic(auto)]

mod answer;
mod did;
mod form;
mod laws;
mod note;
mod place;
mod worked;

pub use answer::{Answer, Fault};
pub use did::{Did, Said};
pub use form::{Captured, Form};
pub use laws::{
    account_law, blind_law, flags_law, id_law, keeps_tests_law, prepare_law, reply_law, reset_law,
    schema_law, stored_again, tame, text_law, tracked_law, unlock_law,
};
pub use note::{Note, NoteKind, Notes};
pub use place::Place;
pub use worked::{worked_insert_id, worked_lock, worked_rollback, worked_temporary};
