// Entries of links to servers: from the code's steps to the core standing for the longer log.

mod closing;
mod farewell;
mod losing;
mod named;
mod nobodys;
mod routers;

pub use closing::closes_go;
pub use farewell::{farewells_router, lost_closes_router};
pub use losing::{given_up_with_it, loses_ended_router, loses_judge, loses_router};
pub use named::{new_links_are_none, steps_are_planned};
pub use nobodys::{opens_go, writes_go};
pub use routers::{closes_router, opens_router, writes_router};
