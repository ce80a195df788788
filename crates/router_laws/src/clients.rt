// Entries of clients' own links: a core goes on with them.

mod comes;
mod going;
mod leaves;
mod speaks;
mod writes;

pub use comes::{comes_go, strangers_are_unseen, turned_away_go};
pub use going::{clients_continue, entries_go_on};
pub use leaves::{leaves_again, leaves_at_once, leaves_going};
pub use speaks::speaks_go;
pub use writes::{client_writes_go, parts_go};
