//! Replies of the client/server protocol that the router writes itself, and those that it knows by one payload.
#![tactic(auto)]

mod eof;
mod err;
mod lone;
mod ok;
mod row;
mod table;

pub use eof::write_eof;
pub use err::write_err;
pub use lone::is_lone_reply;
pub use ok::write_ok;
pub use table::{Table, write_table};
