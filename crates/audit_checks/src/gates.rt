// Gates of reports.
use audit_report::Gate;
use std::sync::atomic::{AtomicBool, Ordering};
use std::thread;

/// How often the held piece looks whether it may go on.
const TURNS: u32 = 1_000_000;

/// A gate that is open.
#[derive(Clone, Copy)]
pub struct Open;

impl Gate for Open {
    fn pass(&self, _piece: u64) {}
}

/// A gate that holds the first piece until the second has passed, for so many turns at most.
#[derive(Drop)]
pub struct Held {
    has_passed: AtomicBool,
    ran_out: AtomicBool,
}

impl Held {
    /// A gate that no piece has passed.
    pub fn new() -> Self {
        Held {
            has_passed: AtomicBool::new(false),
            ran_out: AtomicBool::new(false),
        }
    }

    /// Whether the turns ran out before the second piece had passed.
    pub fn ran_out(&self) -> bool {
        self.ran_out.load(Ordering::SeqCst)
    }

    fn hold(&self) {
        for _ in 0..TURNS {
            if self.has_passed.load(Ordering::SeqCst) {
                return;
            }
            thread::yield_now();
        }
        self.ran_out.store(true, Ordering::SeqCst);
    }
}

impl Gate for Held {
    fn pass(&self, piece: u64) {
        match piece {
            1 => self.hold(),
            _ => self.has_passed.store(true, Ordering::SeqCst),
        }
    }
}
