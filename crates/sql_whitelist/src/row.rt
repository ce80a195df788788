// The rows of a list.
use mx_base::{Bytes, Items};

/// What a user may run in a schema (after ProxySQL, "MySQL Firewall Whitelist", mysql_firewall_whitelist_rules).
#[derive(Drop)]
pub struct ListRow {
    pub user: Bytes,
    pub schema: Bytes,
    /// The hashes of the digests, as `query_digest::digest_hash` gives them.
    pub digests: Items<u64>,
}
