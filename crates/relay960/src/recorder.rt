//! A device that keeps why it failed, since a run says only that it did.

ghost use Rattle.std.specs.Prelude.{◌≡◌, IfErr, None, Some};
ghost use Rattle.std.specs.Io.{ReadsAtMost, WritesAtMost};
ghost use Rattle.std.specs.Io.KnownBytes.{Keeps, ReadConsumes, WriteAppends};

use std::io;
use std::io::{Read, Write};

/// A reader or a writer, and the error of its last call that failed.
#[derive(Drop)]
pub struct ErrorRecorder<D> {
    device: D,
    error: Option<io::Error>,
}

impl<D> ErrorRecorder<D> {
    /// A device that has not failed yet.
    pub fn new(device: D) -> ErrorRecorder<D>
        ensures device { result.device ≡ device }
        ensures error { result.error ≡ None }
    {
        ErrorRecorder {
            device,
            error: None,
        }
    }

    /// Why its last call that failed did so.
    pub fn error(&self) -> Option<io::Error>
        ensures { result ≡ self.now.error }
    {
        self.error
    }
}

/// Keeps the error, if there is one.
fn record<T>(kept: &mut Option<io::Error>, called: &io::Result<T>)
    ensures { IfErr called.now (λ error. kept.new ≡ Some error) }
{
    if let Err(error) = called {
        *kept = Some(*error);
    }
}

impl<R: Read> Read for ErrorRecorder<R> {
    ghost remaining = { λ recorder. R.remaining recorder.device };

    fn read(&mut self, buf: &mut [u8]) -> io::Result<usize>
        ensures bound { ReadsAtMost result buf.new }
        ensures bytes { ReadConsumes (R.remaining self.old.device) (R.remaining self.new.device) result buf.new }
        ensures error { IfErr result (λ error. self.new.error ≡ Some error) }
    {
        let called = self.device.read(buf);
        record(&mut self.error, &called);
        called
    }
}

impl<W: Write> Write for ErrorRecorder<W> {
    ghost contents = { λ recorder. W.contents recorder.device };

    fn write(&mut self, buf: &[u8]) -> io::Result<usize>
        ensures bound { WritesAtMost result buf.now }
        ensures bytes { WriteAppends (W.contents self.old.device) (W.contents self.new.device) result buf.now }
        ensures error { IfErr result (λ error. self.new.error ≡ Some error) }
    {
        let called = self.device.write(buf);
        record(&mut self.error, &called);
        called
    }

    fn flush(&mut self) -> io::Result<()>
        ensures bytes { Keeps (W.contents self.old.device) (W.contents self.new.device) }
        ensures error { IfErr result (λ error. self.new.error ≡ Some error) }
    {
        let called = self.device.flush();
        record(&mut self.error, &called);
        called
    }
}
