// What each piece passes.

/// What each piece of a report passes once, right before its lines are read, on the thread that reads them.
pub trait Gate: Send + Sync {
    /// Lets a piece through. Pieces are numbered from 1, in the order of their lines.
    fn pass(&self, piece: u64);
}
