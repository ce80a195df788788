//! The settings of a session that are tracked: SET statements that are read, settings that they change, and statements
//! that bring a session from some settings to others.
#![tactic(auto)]

mod assignment;
mod change;
mod collation;
mod differences;
mod laws;
mod long_part;
mod modes;
mod names;
mod read;
mod scope;
mod set_tokens;
mod settings;
mod shape;
mod slot;
mod statement;
mod text;
mod transaction;
mod value;

pub use change::{Change, Changes, SlotValue};
pub use collation::is_served_collation;
pub use differences::difference;
pub use laws::{
    difference_can_be_set, difference_leads, difference_read_again, first_word_decides,
    modes_are_a_set, settings_stay_tracked,
};
pub use long_part::LongPart;
pub use read::read_set;
pub use settings::Settings;
pub use shape::SetShape;
pub use slot::Slot;
pub use statement::Statement;
pub use text::{SetTexts, can_be_set, set_texts};
