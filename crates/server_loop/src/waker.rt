//! What wakes a loop that waits for the system's reports.

use mio::Waker;
use std::sync::atomic::{AtomicBool, Ordering};

/// Wakes a loop, for other threads. Several wakes before the loop looks for what it was woken for are one call of the system.
#[derive(Drop)]
pub struct LoopWaker {
    waker: Waker,
    /// Whether it was woken and has not looked since.
    is_woken: AtomicBool,
}

impl LoopWaker {
    /// Wakes the loop that this wakes.
    pub fn new(waker: Waker) -> LoopWaker {
        LoopWaker {
            waker,
            is_woken: AtomicBool::new(false),
        }
    }

    /// Called before the loop looks: a wake from now on wakes it again.
    pub fn reset(&self) {
        self.is_woken.store(false, Ordering::SeqCst);
    }

    /// Wakes the loop, unless it was woken and has not looked since.
    pub fn wake(&self) {
        if !self.is_woken.swap(true, Ordering::SeqCst) {
            let _ = self.waker.wake();
        }
    }
}
