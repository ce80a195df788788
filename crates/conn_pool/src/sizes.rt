// How large a pool is.

/// How many links, waiting clients, keys, places, hostgroups and servers there can be: each number is below its bound.
#[derive(Clone, Copy)]
pub struct Sizes {
    pub links: u32,
    pub waiters: u32,
    pub keys: u32,
    pub places: u32,
    pub groups: u32,
    pub servers: u32,
}
