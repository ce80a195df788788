// A message that was found.

/// A message that was found: the sequence id of its last packet, and how many bytes its payload has.
#[derive(Clone, Copy, Debug)]
pub struct Message {
    pub last: u8,
    pub length: u64,
}
