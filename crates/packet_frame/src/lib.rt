//! Messages of the client/server protocol: from packets, in whatever pieces the bytes come, and back.
#![tactic(auto)]

mod answer_id;
mod fault;
mod framer;
mod header;
mod joining;
mod kept;
mod laws;
mod message;
mod pieces;
mod write;

pub use fault::FrameFault;
pub use framer::Framer;
pub use laws::one_spelling;
pub use message::Message;
pub use pieces::{Payloads, payloads_of};
pub use write::write_message;
