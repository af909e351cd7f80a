//! Arguments that ask for nothing that can be done: the message on standard error, and the status.

ghost use Rattle.std.specs.Prelude.{◌≡◌, ◌≢◌};
ghost use Rattle.clap.specs.Words.{kind_of};
ghost use Rattle.relay960_words.specs.Statuses.{IsFault};

use crate::status::Status;
use crate::words::not_utf8;
use clap::Error;
use clap::error::ErrorKind;
use std::alloc::Global;

/// Prints the text of an argument error on standard error, also for help, and returns the status.
pub(crate) fn status_of_error<R: Eprint>(rt: &R, error: &Error) -> Status
    ensures memory { kind_of error.now ≡ ErrorKind.OutOfMemory → result ≡ Status.OutOfMemory }
    ensures words { kind_of error.now ≢ ErrorKind.OutOfMemory → result ≡ Status.FaultyWords }
{
    if error.kind() == ErrorKind::OutOfMemory {
        return status_without_memory(rt);
    }
    // The status reports the error even if standard error is closed.
    let _ = rt.eprint(error);
    Status::FaultyWords
}

/// Reports on standard error that an argument is not text in UTF-8, and returns the status.
pub fn status_of_no_text<R: Eprint>(rt: &R, alloc: Global) -> Status
    ensures { IsFault result }
{
    status_of_error(rt, &not_utf8(alloc))
}

/// Reports on standard error that there was no memory, and returns the status.
pub fn status_without_memory<R: Eprint>(rt: &R) -> Status
    ensures { result ≡ Status.OutOfMemory }
{
    let _ = rt.eprintln("fault 12 OutOfMemory");
    Status::OutOfMemory
}
