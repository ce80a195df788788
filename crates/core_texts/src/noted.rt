// By when what clients took up was taken up.

/// A client's message of this place among its messages had been taken up by this moment, in milliseconds.
#[derive(Clone, Copy)]
pub struct Noted {
    pub ordinal: u64,
    pub by_ms: u64,
}
