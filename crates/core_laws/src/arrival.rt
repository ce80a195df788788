// Clients come and speak, are written to and forgotten: the tables stand for the tale.

mod comes;
mod looks;
mod speaks;

pub use comes::{clients_are_turned_away, clients_come};
pub use looks::{clients_look, waits_are_idle};
pub use speaks::{clients_are_forgotten, clients_get, clients_speak};
