//! A link to a server that clients share, behind its login: what it was told and what is prepared there, whom it carries, what is asked there,
//! what goes there next, and how that is spelt.
#![tactic(auto)]

mod asking;
mod behind;
mod classes;
mod done;
mod effect;
mod ids;
mod place;
mod spells;
mod standing;
mod state;
mod wish;
mod writing;

pub use asking::{Asking, Form, Purpose};
pub use behind::pin_behind;
pub use classes::use_class;
pub use done::is_done_by;
pub use effect::hear_id;
pub use spells::{spell, spell_execute, spell_id, spell_numbered, spell_text};
pub use standing::Standing;
pub use state::{Carried, LinkState, Stage};
pub use wish::{Command, Session, Task, Wanted, Wish, task_of};
pub use writing::Writing;
