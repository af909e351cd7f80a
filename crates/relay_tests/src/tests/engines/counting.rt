//! Devices that fail once, and count that.

use relay960_engines::{ReadDevice, WriteDevice};
use std::io;
use std::io::ErrorKind;

/// It gives one byte a read. When `good` bytes are left it fails once, with an error of a kind that the standard readers retry.
#[derive(Drop)]
pub struct CountingReader<'a> {
    /// The bytes that it still has.
    pub rest: &'a [u8],
    /// How many bytes are left when it fails.
    pub good: usize,
    /// Whether it has failed.
    pub has_failed: bool,
}

impl ReadDevice for CountingReader<'_> {
    ghost use Rattle.std.specs.Prelude.{Some, cond};

    ghost remaining = { λ reader. Some reader.rest.now };

    ghost failures = { λ reader. Some (cond reader.has_failed 1 0) };

    fn read_some(&mut self, buf: &mut [u8]) -> io::Result<usize> {
        if self.rest.len() == self.good && !self.has_failed {
            self.has_failed = true;
            return Err(io::Error::from(ErrorKind::Interrupted));
        }
        let count = self.rest.len().min(buf.len()).min(1);
        buf[..count].copy_from_slice(&self.rest[..count]);
        self.rest = &self.rest[count..];
        Ok(count)
    }
}

/// What a writer answers when it fails.
#[derive(Clone, Copy)]
pub enum Failure {
    /// That it took no byte.
    NoByte,
    /// An error, of a kind that the standard `write_all` would retry.
    Error,
}

/// It takes one byte a write, and compares it with the text that is to come. When `good` bytes of that are left it fails once.
#[derive(Drop)]
pub struct CountingWriter<'a> {
    /// What has yet to come of the text.
    pub rest: &'a [u8],
    /// How many bytes are left when it fails.
    pub good: usize,
    /// How it fails.
    pub failure: Failure,
    /// Whether it has failed.
    pub has_failed: bool,
    /// Whether a byte came that is not in the text.
    pub has_differed: bool,
}

impl WriteDevice for CountingWriter<'_> {
    ghost use Rattle.std.specs.Prelude.{Some, None, cond};

    ghost contents = { λ _. None };

    ghost failures = { λ writer. Some (cond writer.has_failed 1 0) };

    fn write_some(&mut self, buf: &[u8]) -> io::Result<usize> {
        let [byte, ..] = buf else {
            return Ok(0);
        };
        if self.rest.len() == self.good && !self.has_failed {
            self.has_failed = true;
            return match self.failure {
                Failure::NoByte => Ok(0),
                Failure::Error => Err(io::Error::from(ErrorKind::Interrupted)),
            };
        }
        match self.rest {
            [next, later @ ..] if next == byte => self.rest = later,
            _ => self.has_differed = true,
        }
        Ok(1)
    }
}
