//! Reports on files of statements: which digests and classes they have, how often, and where the rules send them.
#![tactic(auto)]

mod ask;
mod audit;
mod gate;
mod key;
mod laws;
mod lines;
mod name;
mod piece;
mod row;
mod tally;
mod text;

pub use ask::AuditAsk;
pub use audit::report;
pub use gate::Gate;
pub use laws::digests_stay;
pub use lines::lines_of;
pub use row::ReportRow;
pub use text::report_text;
