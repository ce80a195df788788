//! The texts that clients prepared: each with the place of its preparation and its class, once for all who need it, by a number that is never
//! given again. So what a number stands for is settled once. And by when the messages had been taken up that clients have in work.
#![tactic(auto)]

mod copying;
mod kept;
mod noted;
mod texts;

pub use copying::copy_of;
pub use kept::Kept;
pub use noted::Noted;
pub use texts::Texts;
