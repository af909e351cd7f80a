//! The bell of a board, on which the threads of its followers sleep.

use relay_pushing::Bell;
use std::sync::Wait;
use std::sync::atomic::{AtomicU64, Ordering};

/// A count of rings as the bell of a board, with the runtime by which a listener waits.
#[derive(Drop)]
pub(crate) struct BoardBell<'a, R> {
    pub(crate) rt: &'a R,
    /// Threads sleep on it until it changes.
    pub(crate) rings: &'a AtomicU64,
}

impl<R: Wait> Bell for BoardBell<'_, R> {
    fn count(&self) -> u64 {
        self.rings.load(Ordering::SeqCst)
    }

    fn ring(&self) {
        self.rings.fetch_add(1, Ordering::SeqCst);
        self.rings.wake_all();
    }

    fn wait(&self, heard: u64) -> u64 {
        for _ in self.rt.forever() {
            let now = self.count();
            if now != heard {
                return now;
            }
            self.rings.park(self.rt, (heard & 0xffff_ffff) as u32);
        }
        unreachable!()
    }
}
