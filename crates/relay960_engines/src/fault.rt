//! What ends a run early.

ghost use Rattle.std.specs.Prelude.{◌≡◌};
ghost use Rattle.relay960_engines.specs.Faults.{run_fault_code, run_fault_name};

use thiserror::Error;

/// The fault that ends a run. It is shown as `fault 32 Write`, with its number and its name.
#[derive(Clone, Copy, PartialEq, Eq, Debug, Error)]
#[error("fault {} {}", self.code(), self.name())]
pub enum RunFault {
    /// The device refused a read.
    Read,
    /// The device refused a write, or took no byte.
    Write,
    /// The input has more lines or more bytes than a run accepts.
    TooLong,
    /// There was no memory.
    OutOfMemory,
    /// There is no such start. The line that says so was written.
    BadStart,
}

impl RunFault {
    /// The number of the fault.
    pub fn code(&self) -> u64
        ensures { result ≡ run_fault_code self.now }
    {
        match self {
            RunFault::Read => 31,
            RunFault::Write => 32,
            RunFault::TooLong => 33,
            RunFault::OutOfMemory => 12,
            RunFault::BadStart => 3,
        }
    }

    /// The name of the fault.
    pub fn name(&self) -> &'static str
        ensures { result.now ≡ run_fault_name self.now }
    {
        match self {
            RunFault::Read => "Read",
            RunFault::Write => "Write",
            RunFault::TooLong => "TooLong",
            RunFault::OutOfMemory => "OutOfMemory",
            RunFault::BadStart => "BadStart",
        }
    }
}
