// A client that waits at a port.

/// A client that waits at a port: the number of its `accept` line, and its salt.
#[derive(Clone, Copy)]
pub struct Waiting {
    pub number: u16,
    pub salt: [u8; 20],
}
