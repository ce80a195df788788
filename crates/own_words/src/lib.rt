//! What the router says to a client by itself.
#![tactic(auto)]

mod others;

pub use others::{
    answers_ok_with_any_text, answers_with_a_servers_error, answers_with_any_refusal,
    answers_with_rows, own_answers_are_everybodys, parts_with_a_servers_error, parts_with_rows,
    says_more_than_a_loss, tells_anothers_number,
};
