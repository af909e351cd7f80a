//! The time of a loop.

use std::io;
use std::time::{Clock, Duration, Instant};

/// When a loop began, and how long ago that was when its clock was last read.
#[derive(Clone, Copy)]
pub struct LoopClock {
    began: Instant,
    passed: Duration,
}

impl LoopClock {
    /// Of a loop that begins now.
    ///
    /// # Errors
    ///
    /// The clock cannot be read.
    pub fn begin<C: Clock>(clock: &C) -> io::Result<LoopClock> {
        Ok(LoopClock {
            began: Instant::now(clock)?,
            passed: Duration::ZERO,
        })
    }

    /// Reads the clock. If it cannot be read, the time stands still.
    pub fn look<C: Clock>(&mut self, clock: &C) {
        if let Ok(now) = Instant::now(clock) {
            self.passed = now.duration_since(self.began);
        }
    }

    /// How long ago it began.
    pub fn passed(&self) -> Duration {
        self.passed
    }

    /// The same in whole milliseconds.
    pub fn millis(&self) -> u64 {
        u64::try_from(self.passed.as_millis()).unwrap_or(u64::MAX)
    }
}
