//! What the system refused, and why.

use crate::journal::JournalDamage;
use std::net::SocketAddr;
use std::{fmt, io};

/// What failed.
#[derive(Clone, Copy)]
pub enum Device<'a> {
    /// Standard input.
    Input,
    /// Standard output.
    Output,
    /// Listening at this address and port.
    Port(SocketAddr),
    /// The file with this path.
    File(&'a str),
    /// The file in which the end of the journal with this path is kept that was cut short, from this byte on.
    TornPart(&'a str, usize),
}

/// Why it did.
#[derive(Clone, Copy)]
pub enum Reason {
    /// The system refused a call.
    System(io::Error),
    /// The file is no journal, or a damaged one.
    Damage(JournalDamage),
}

/// What failed, and why. It is shown as `127.0.0.1:9600: Address already in use (os error 98)`.
#[derive(Clone, Copy)]
pub struct Failure<'a> {
    /// What failed.
    pub device: Device<'a>,
    /// Why it did.
    pub reason: Reason,
}

impl<'a> fmt::Display for Device<'a> {
    ghost use Rattle.std.specs.Prelude.{Some};
    ghost use Rattle.relay960.specs.Failures.{device_text};

    ghost output = { λ device. Some (device_text device) };

    fn fmt<W: fmt::Write>(&self, f: &mut fmt::Formatter<W>) -> fmt::Result {
        match self {
            Device::Input => f.write_str("standard input"),
            Device::Output => f.write_str("standard output"),
            Device::Port(address) => write!(f, "{address}"),
            Device::File(path) => f.write_str(path),
            Device::TornPart(path, at) => write!(f, "{path}.torn-{at}"),
        }
    }
}

impl fmt::Display for Reason {
    fn fmt<W: fmt::Write>(&self, f: &mut fmt::Formatter<W>) -> fmt::Result {
        match self {
            Reason::System(error) => write!(f, "{error}"),
            Reason::Damage(damage) => write!(f, "{damage}"),
        }
    }
}

impl<'a> fmt::Display for Failure<'a> {
    fn fmt<W: fmt::Write>(&self, f: &mut fmt::Formatter<W>) -> fmt::Result {
        write!(f, "{}: {}", self.device, self.reason)
    }
}
