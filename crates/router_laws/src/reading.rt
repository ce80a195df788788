// Bytes come on links to servers: the core over shared links goes on with that entry of the log.

mod aside;
mod cores;
mod reading;

pub use aside::given_up_aside;
pub use cores::{hears_goes, hears_judge, hears_keep, hears_router, hears_so};
pub use reading::hears_rest;
