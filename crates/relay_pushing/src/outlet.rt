//! Outlets, to which texts are sent.

ghost use Rattle.std.specs.Prelude.{◌≡◌, ℕ, List, Option, None, OnOk, OnErr};
ghost use Rattle.relay_pushing.specs.Sending.{Counts, Gains, send_fault_code as code_of};

/// Why a text was not sent.
#[derive(Clone, Copy, PartialEq, Eq, Debug)]
pub enum SendFault {
    /// The device failed: for any cause but lack of memory, including a full buffer.
    Device,
    /// There was no memory.
    OutOfMemory,
}

impl SendFault {
    /// The number of the fault: 41 for the device, 12 for memory.
    pub fn code(&self) -> u64
        ensures { result ≡ code_of self.now }
    {
        match self {
            SendFault::Device => 41,
            SendFault::OutOfMemory => 12,
        }
    }
}

/// Where texts go. It counts the failures of its device, up to the greatest `u64`.
pub trait Outlet {
    /// The texts that it accepted, in order, if it reports them.
    ghost sent: { Self → Option (List (List ℕ)) } = { λ _. None };

    /// How often its device failed.
    ghost failures: { Self → ℕ };

    /// Whether it has room for another text. Pushing by turns asks this before each take, and goes on later if there is none. An outlet
    /// whose `send` may wait until there is room needs no other body than this one.
    fn has_room(&self) -> bool {
        true
    }

    /// Accepts a text. It is on its way after the next `flush` or `close` at the latest.
    ///
    /// # Errors
    ///
    /// The text was not accepted: the device failed, or there was no memory.
    fn send(&mut self, text: &str) -> Result<(), SendFault>
        ensures ok { OnOk result (Gains (sent self.old) (sent self.new) text.now) }
        ensures err { OnErr result (sent self.new ≡ sent self.old) }
        ensures counts { Counts (failures self.old) (failures self.new) result };

    /// Sends on its way what was accepted. An outlet that keeps nothing back needs no other body than this one.
    ///
    /// # Errors
    ///
    /// The device failed, or there was no memory.
    fn flush(&mut self) -> Result<(), SendFault>
        ensures same { sent self.new ≡ sent self.old }
        ensures counts { Counts (failures self.old) (failures self.new) result }
    {
        Ok(())
    }

    /// Sends on its way what was accepted, and then that there is no more, for the reason given by this code.
    ///
    /// # Errors
    ///
    /// The device failed, or there was no memory.
    fn close(&mut self, code: u16) -> Result<(), SendFault>
        ensures same { sent self.new ≡ sent self.old }
        ensures counts { Counts (failures self.old) (failures self.new) result };
}
