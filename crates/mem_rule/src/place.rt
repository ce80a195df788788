// Where tables are.

/// Where the table is that a session sees.
#[derive(Clone, Copy)]
pub enum Place {
    /// In the session itself.
    Temporary,
    /// Nowhere.
    Absent,
    /// Another session holds its lock.
    Locked,
    /// It is this one of the data.
    There(usize),
}
