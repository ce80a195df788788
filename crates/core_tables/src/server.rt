// A link to a server.

use served_link::Row;

/// A link to a server: its row; and what only the choice of the next act needs, its small number, and the number of its key with what it
/// was told, where it may be lent.
#[derive(Drop)]
pub struct Server {
    pub row: Row,
    pub slot: u32,
    pub spot: Option<u32>,
}
