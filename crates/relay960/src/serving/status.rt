//! How serving ended: the line on standard error, and the exit status of the program.

ghost use Rattle.std.specs.Prelude.{◌≡◌, MatchResult};
ghost use Rattle.relay960.specs.ServeFaults.{serve_fault_status};

use crate::report::Report;
use crate::serving::fault::ServeFault;
use main_port::ServeEnd;
use relay960_words::Status;

/// Reports on standard error how serving ended, and returns the status: `Done` if all connections were met, `DeviceFailed` if a
/// device failed before that, `OutOfMemory` if there was no memory.
pub fn status_of_end<E: Eprint>(rt: &E, ended: Result<ServeEnd, ServeFault<'_>>) -> Status
    ensures { MatchResult ended.entry (λ end. result ≡ Status.Done) (λ fault. result ≡ serve_fault_status fault) }
{
    match ended {
        Ok(end) => {
            // The status reports the end even if standard error is closed.
            let _ = eprintln!(rt; "served {}, failed {}", end.served, end.failed);
            Status::Done
        }
        Err(fault) => status_of_fault(rt, fault),
    }
}

/// Reports a fault on standard error, and returns the status: `DeviceFailed`, or `OutOfMemory` if there was no memory.
pub fn status_of_fault<E: Eprint>(rt: &E, fault: ServeFault<'_>) -> Status
    ensures { result ≡ serve_fault_status fault.entry }
{
    // The status reports the fault even if standard error is closed.
    let _ = rt.eprint(Report {
        fault,
        failure: fault.failure(),
    });
    match fault {
        ServeFault::Device(_) | ServeFault::Read(_) | ServeFault::Write(_) => Status::DeviceFailed,
        ServeFault::OutOfMemory => Status::OutOfMemory,
    }
}
