// As the loop waits.

mod done;

pub use done::waits_done;
