//! What a run reads from and writes to.
//!
//! A device may count how often it has failed. So a contract can say that a run ends with the fault of a device exactly if that
//! device has failed. The readers and writers of the standard library are devices that do not count.

ghost use Rattle.std.specs.Prelude.{◌≡◌, ℕ, List, Option, None};
ghost use Rattle.std.specs.Io.{ReadsAtMost, WritesAtMost};
ghost use Rattle.std.specs.Io.KnownBytes.{ReadConsumes, WriteAppends};
ghost use Rattle.relay960_engines.specs.Failures.{failures_of_read, failures_of_write};

use std::io;
use std::io::{Read, Write};

/// A reader, like the standard `Read`, which may count its failures.
pub trait ReadDevice {
    /// The bytes that reads will give from here on, if they are known.
    ghost remaining: { Self → Option (List ℕ) };

    /// How many reads have failed, if the device counts them.
    ghost failures: { Self → Option ℕ };

    /// Reads some bytes into the front of the buffer and returns their number, which is 0 only at the end, or if the buffer is
    /// empty.
    ///
    /// # Errors
    ///
    /// The read failed, and no byte was taken.
    fn read_some(&mut self, buf: &mut [u8]) -> io::Result<usize>
        ensures bound { ReadsAtMost result buf.new }
        ensures bytes { ReadConsumes (remaining self.old) (remaining self.new) result buf.new }
        ensures counted { failures self.new ≡ failures_of_read result (failures self.old) };
}

impl<R: Read> ReadDevice for R {
    ghost remaining = { λ reader. R.remaining reader };

    ghost failures = { λ _. None };

    fn read_some(&mut self, buf: &mut [u8]) -> io::Result<usize> {
        self.read(buf)
    }
}

/// A writer, like the standard `Write`, which may count its failures.
pub trait WriteDevice {
    /// The bytes that the writer holds, if they are known.
    ghost contents: { Self → Option (List ℕ) };

    /// How many writes have failed, if the device counts them.
    ghost failures: { Self → Option ℕ };

    /// Writes some of the buffer's first bytes and returns their number. To take no byte of a non-empty buffer is a failure.
    ///
    /// # Errors
    ///
    /// The write failed, and no byte was written.
    fn write_some(&mut self, buf: &[u8]) -> io::Result<usize>
        ensures bound { WritesAtMost result buf.now }
        ensures bytes { WriteAppends (contents self.old) (contents self.new) result buf.now }
        ensures counted { failures self.new ≡ failures_of_write result buf.now (failures self.old) };
}

impl<W: Write> WriteDevice for W {
    ghost contents = { λ writer. W.contents writer };

    ghost failures = { λ _. None };

    fn write_some(&mut self, buf: &[u8]) -> io::Result<usize> {
        self.write(buf)
    }
}
