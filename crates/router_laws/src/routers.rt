// A router goes on with entries by which nobody is called, ended or given up.

mod clients;
mod enters;
mod somehow;

pub use clients::{client_writes_router, parts_router};
pub use enters::routers_enter;
pub use somehow::{routers_are_linked, routers_rest};
