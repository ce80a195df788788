//! Query rules: which hostgroup a text goes to, how it is rewritten, and what is answered in its place.
#![tactic(auto)]

mod ask;
mod fault;
mod pass;
mod pattern;
mod received;
mod row;
mod rule;
mod rules;

pub use ask::{Ask, Routed, Stop};
pub use fault::RuleFault;
pub use pattern::is_pattern;
pub use row::RuleRow;
pub use rules::Rules;
