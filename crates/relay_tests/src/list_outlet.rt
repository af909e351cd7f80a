//! An outlet in memory that reports its texts.

ghost use Rattle.std.specs.Prelude.{◌≡◌, Err};
ghost use Rattle.relay_pushing.specs.Sending.{Counts};

use relay_pushing::{Outlet, SendFault};
use std::alloc::Global;

/// An outlet that keeps the texts sent. Its device takes a number of texts, and a number of flushes, and then fails.
#[derive(Drop)]
pub struct ListOutlet {
    pub alloc: Global,
    /// The texts that it accepted.
    pub texts: Vec<Vec<u8>>,
    /// How many texts its device takes.
    pub room: usize,
    /// How many flushes its device takes.
    pub flushes: usize,
    /// How often its device failed.
    pub failures: u64,
}

impl ListOutlet {
    /// An outlet that has no text yet.
    pub fn new(alloc: Global, room: usize, flushes: usize) -> ListOutlet {
        ListOutlet {
            alloc,
            texts: Vec::new(alloc),
            room,
            flushes,
            failures: 0,
        }
    }

    /// Counts a failure of the device.
    fn device_failed(&mut self) -> SendFault
        ensures counted { Counts self.old.failures self.new.failures (Err result) }
        ensures same { self.new ≡ record self.old { failures = self.new.failures } }
    {
        if self.failures < u64::MAX {
            self.failures += 1;
        }
        SendFault::Device
    }
}

impl Outlet for ListOutlet {
    ghost use Rattle.std.specs.Prelude.{Some, map};

    ghost sent = { λ o. Some (map (λ text. text.items) o.texts.items) };

    ghost failures = { λ o. o.failures };

    #[tactic(auto, using(crate::proofs::Told::told_more))]
    fn send(&mut self, text: &str) -> Result<(), SendFault> {
        if self.texts.len() >= self.room {
            return Err(self.device_failed());
        }
        let mut bytes = Vec::new(self.alloc);
        if bytes.extend_from_slice(text.as_bytes()).is_err() {
            return Err(SendFault::OutOfMemory);
        }
        match self.texts.push(bytes) {
            Ok(()) => Ok(()),
            Err(_) => Err(SendFault::OutOfMemory),
        }
    }

    fn flush(&mut self) -> Result<(), SendFault> {
        if self.flushes == 0 {
            return Err(self.device_failed());
        }
        self.flushes -= 1;
        Ok(())
    }

    fn close(&mut self, _code: u16) -> Result<(), SendFault> {
        Ok(())
    }
}
