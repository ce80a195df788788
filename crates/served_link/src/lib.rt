//! What a router keeps of a link to a server that its clients share: the link, where it belongs, the session that it carries where that
//! was left, how it was used, and why it is to be closed; what its bytes tell, what goes there next, and how that begins.
#![tactic(auto)]

mod beginning;
mod closing;
mod hearing;
mod news;
mod noting;
mod numbers;
mod resting;
mod row;
mod stating;
mod wanting;
mod writing;

pub use closing::Outside;
pub use news::News;
pub use numbers::LongNumbers;
pub use row::{Identity, LeftSession, Opening, Row};
pub use stating::Stated;
