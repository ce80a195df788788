// The core at a wake, at an open that failed, and between entries: what it does keeps that it stands for the longer log.

mod settling;
mod waking;

pub use settling::{settling_goes_on, settling_stands};
pub use waking::{fails_router, wakes_router};
