//! Digests of SQL statements: statements that differ in values, comments and white space alone have one.
#![tactic(auto)]

mod hash;
mod laws;
mod statement;
mod table;
mod writer;

pub use hash::digest_hash;
pub use laws::one_folding;
pub use statement::{digest, digest_start};
pub use table::{Counted, DigestKey, DigestTable};
