// A client's message that came up is taken up: the tables stand for the tale.

mod joins;
mod taken;

pub use joins::{
    decided_dues_stand, dues_are_sent, forms_are_asked, own_answers_are_spelt, texts_are_asked,
    texts_are_requests, written_answers_stand,
};
pub use taken::{dues_stand, next_is_taken, own_answers_stand, quits_stand, resets_stand};
