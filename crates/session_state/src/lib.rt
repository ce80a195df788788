//! Why a session keeps its link: what is left in it after each reply, and whether its insert id is known. With the
//! types in which routers and their laws speak of sessions.
#![tactic(auto)]

mod insert_id;
mod names;
mod pin;
mod place;
mod reply_end;

pub use insert_id::{insert_id_after, insert_id_prepared};
pub use names::{MessageName, SessionName};
pub use pin::{Pin, is_pinned, needs_reset, pin_after, reads_own};
pub use place::{Place, Told};
pub use reply_end::{EndKind, ReplyEnd};
