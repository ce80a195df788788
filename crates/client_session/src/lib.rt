//! What a client's session goes by: its setup, who may log in and the errors that the router itself answers; and, as definitions, who a
//! client is by what it says, its messages and their answers.
#![tactic(auto)]

mod account;
mod arrival;
mod refusal;
mod setup;

pub use account::{account_of, write_denial};
pub use arrival::login_end;
pub use refusal::{Refusal, write_own_ok, write_refusal};
pub use setup::{ServerAt, Setup, User};
