//! How often clients' statements went to servers, by the digests of their texts.
#![tactic(auto)]

mod digests;
mod known;

pub use digests::Digests;
