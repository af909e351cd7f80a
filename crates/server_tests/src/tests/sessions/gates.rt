//! A gate that holds nobody back.

use relay_server::Gate;
use std::sync::atomic::{AtomicU64, Ordering};

/// A gate that counts its calls.
#[derive(Drop)]
pub struct Counted {
    pub before: AtomicU64,
    pub after: AtomicU64,
}

impl Counted {
    pub fn new() -> Counted {
        Counted {
            before: AtomicU64::new(0),
            after: AtomicU64::new(0),
        }
    }

    /// How often each call was made.
    pub fn counts(&self) -> (u64, u64) {
        (
            self.before.load(Ordering::SeqCst),
            self.after.load(Ordering::SeqCst),
        )
    }
}

impl Gate for Counted {
    fn before(&self, _connection: u32) {
        self.before.fetch_add(1, Ordering::SeqCst);
    }

    fn after(&self, _connection: u32) {
        self.after.fetch_add(1, Ordering::SeqCst);
    }
}
