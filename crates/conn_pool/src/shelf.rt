// Where a link belongs.

/// Where a link belongs that may be lent: the key of those that it serves, the place that it was told, and its server with that one's
/// hostgroup.
#[derive(Clone, Copy)]
pub struct Shelf {
    pub key: u32,
    /// The schema and settings that the link was told.
    pub place: u32,
    pub group: u32,
    pub server: u32,
}
