//! The login method mysql_native_password: what a client answers to a server's salt, and the check of an answer.
#![tactic(auto)]

mod answers;
mod password;

pub use answers::Answer;
pub use password::{answer, check};
