// What a table keeps of a key.

/// The number of a key, and how many hold the key beside the first.
#[derive(Clone, Copy)]
pub struct Held {
    pub number: u32,
    pub others: u32,
}
