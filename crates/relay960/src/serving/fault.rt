//! Why nothing was served, or a journal was not checked.

ghost use Rattle.std.specs.Prelude.{◌≡◌};
ghost use Rattle.relay960.specs.ServeFaults.{serve_fault_code, serve_fault_failure, serve_fault_name};

use crate::failure::{Device, Failure, Reason};
use crate::journal::JournalDamage;
use std::alloc::AllocError;
use std::net::SocketAddr;
use std::{fmt, io};

/// Why nothing was served or why serving ended early, or why a journal was not checked. It is shown as `fault 41 Device`, with its number
/// and its name.
#[derive(Clone, Copy)]
pub enum ServeFault<'a> {
    /// The server cannot listen on a port, or cannot have its journal.
    Device(Failure<'a>),
    /// The journal could not be read, or is none that a relay can go on with.
    Read(Failure<'a>),
    /// What is announced could not be written, or the journal, or what was found in one.
    Write(Failure<'a>),
    /// There was no memory.
    OutOfMemory,
}

impl<'a> ServeFault<'a> {
    /// The server cannot listen at this address, for this reason.
    pub fn at(address: SocketAddr, reason: io::Error) -> ServeFault<'a>
        ensures { result ≡ ServeFault.Device (record { device = Device.Port address; reason = Reason.System reason }) }
    {
        ServeFault::Device(Failure {
            device: Device::Port(address),
            reason: Reason::System(reason),
        })
    }

    /// The server cannot have the file with this path, for this reason.
    pub fn of_file(path: &'a str, reason: io::Error) -> ServeFault<'a>
        ensures { result ≡ ServeFault.Device (record { device = Device.File path.entry; reason = Reason.System reason }) }
    {
        ServeFault::Device(Failure {
            device: Device::File(path),
            reason: Reason::System(reason),
        })
    }

    /// The file with this path could not be read, for this reason.
    pub fn unread(path: &'a str, reason: io::Error) -> ServeFault<'a>
        ensures { result ≡ ServeFault.Read (record { device = Device.File path.entry; reason = Reason.System reason }) }
    {
        ServeFault::Read(Failure {
            device: Device::File(path),
            reason: Reason::System(reason),
        })
    }

    /// The file with this path is no journal that a relay can go on with.
    pub fn damaged(path: &'a str, damage: JournalDamage) -> ServeFault<'a>
        ensures { result ≡ ServeFault.Read (record { device = Device.File path.entry; reason = Reason.Damage damage }) }
    {
        ServeFault::Read(Failure {
            device: Device::File(path),
            reason: Reason::Damage(damage),
        })
    }

    /// This could not be written, for this reason.
    pub fn unwritten(device: Device<'a>, reason: io::Error) -> ServeFault<'a>
        ensures { result ≡ ServeFault.Write (record { device = device.entry; reason = Reason.System reason }) }
    {
        ServeFault::Write(Failure {
            device,
            reason: Reason::System(reason),
        })
    }

    /// What failed, if it is known.
    pub fn failure(&self) -> Option<Failure<'a>>
        ensures { result ≡ serve_fault_failure self.now }
    {
        match self {
            ServeFault::Device(it) | ServeFault::Read(it) | ServeFault::Write(it) => Some(*it),
            ServeFault::OutOfMemory => None,
        }
    }

    /// The number of the fault.
    pub fn code(&self) -> u64
        ensures { result ≡ serve_fault_code self.now }
    {
        match self {
            ServeFault::Device(_) => 41,
            ServeFault::Read(_) => 31,
            ServeFault::Write(_) => 32,
            ServeFault::OutOfMemory => 12,
        }
    }

    /// The name of the fault.
    pub fn name(&self) -> &'static str
        ensures { result.now ≡ serve_fault_name self.now }
    {
        match self {
            ServeFault::Device(_) => "Device",
            ServeFault::Read(_) => "Read",
            ServeFault::Write(_) => "Write",
            ServeFault::OutOfMemory => "OutOfMemory",
        }
    }
}

impl<'a> fmt::Display for ServeFault<'a> {
    ghost use Rattle.std.specs.Prelude.{Some};
    ghost use Rattle.relay960.specs.ServeFaults.{serve_fault_text};

    ghost output = { λ fault. Some (serve_fault_text fault) };

    fn fmt<W: fmt::Write>(&self, f: &mut fmt::Formatter<W>) -> fmt::Result {
        write!(f, "fault {} {}", self.code(), self.name())
    }
}

impl<'a> From<AllocError> for ServeFault<'a> {
    ghost use Rattle.relay960.specs.declared.serving.fault.ServeFault.TheVariants.{OutOfMemory};

    ghost from_gives = { λ _ fault. fault ≡ OutOfMemory };

    fn from(_: AllocError) -> ServeFault<'a> {
        ServeFault::OutOfMemory
    }
}
