// Entries at which the core does nothing: its tables stand for the longer log.

mod quiet;

pub use quiet::{marks_router, quiet_router, quiets_router, routers_append};
