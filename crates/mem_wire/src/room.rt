// The room for writes on a link.
ghost use Rattle.std.specs.Prelude.{◌≡◌, ◌-◌};

/// How many bytes more writes take in the wake of this line.
#[derive(Clone, Copy)]
pub(crate) struct Room {
    pub wake: usize,
    pub left: u64,
}

impl Room {
    /// The room behind a write of so many bytes.
    pub fn without(self, n: usize) -> Room
        ensures { result ≡ record { wake = self.wake; left = self.left - n } }
    {
        Room {
            wake: self.wake,
            left: self.left.saturating_sub(n as u64),
        }
    }
}
