//! Lists of the statements that users may run, by the hashes of their digests.
#![tactic(auto)]

mod commands;
mod digest_hashes;
mod laws;
mod list;
mod row;
mod text;

pub use digest_hashes::hashes;
pub use laws::listed_alone;
pub use list::Whitelist;
pub use row::ListRow;
pub use text::digests_line;
