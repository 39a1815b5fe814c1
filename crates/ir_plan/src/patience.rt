//! For how long the lanes are left alone after a search in them found nothing.

use std::sync::atomic::{AtomicU64, Ordering};

/// How many batches go without the lanes. Threads share it. No row depends on it; what it answers is tested, and
/// nothing is proved of it.
#[derive(Drop)]
pub struct Patience {
    /// How many batches from now on.
    left: AtomicU64,
    /// How many after the next one that finds nothing.
    next: AtomicU64,
}

impl Patience {
    /// No batch has failed so far: the lanes are tried.
    pub fn new() -> Patience {
        Patience {
            left: AtomicU64::new(0),
            next: AtomicU64::new(1),
        }
    }

    /// Whether the lanes are tried for a batch.
    pub fn tries(&self) -> bool {
        let left = self.left.load(Ordering::SeqCst);
        if left > 0 {
            self.left.store(left - 1, Ordering::SeqCst);
        }
        left == 0
    }

    /// Learns whether a batch found anything. After k batches in a row that did not, the next 2^(k-1) are not tried.
    pub fn learns(&self, has_found: bool) {
        if has_found {
            self.next.store(1, Ordering::SeqCst);
        } else {
            let next = self.next.load(Ordering::SeqCst);
            self.left.store(next, Ordering::SeqCst);
            self.next.store(next.saturating_mul(2), Ordering::SeqCst);
        }
    }
}
