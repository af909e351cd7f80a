//! What the program does for its arguments, and its exit status.

ghost use Rattle.std.specs.Prelude.{◌≡◌, MatchResult, cond};
ghost use Rattle.relay960.specs.Failures.{first_failure};
ghost use Rattle.relay960.specs.Statuses.{Ends, EndsSomehow, end_status, fault_status};

use crate::failure::{Device, Failure, Reason};
use crate::recorder::ErrorRecorder;
use crate::report::Report;
use relay960_engines::{
    RunFault, ScriptLimits, default_limits, moves_run, play_run, script_run, start_run, version_run,
};
use relay960_words::{Job, Order, Service, Status, VERSION, order_of};
use std::alloc::Global;
use std::convert::AsStr;
use std::io;
use std::io::{Read, Write};

/// The result of reading the arguments.
#[derive(Clone, Copy)]
pub enum Course<'a> {
    /// What they ask for is done, with this status.
    Ended(Status),
    /// They ask to serve.
    Serves(Service<'a>),
    /// They ask to check the journal with this path.
    Checks(&'a str),
}

/// Does what the arguments ask for and returns the status, unless they ask to serve or to check a journal. The first argument is the
/// program's name.
pub fn course_of<'a, R: Input + Print + Eprint, S: AsStr>(
    rt: &R,
    alloc: Global,
    words: &'a [S],
) -> Course<'a> {
    match order_of(rt, alloc, words) {
        Ok(Order::Run(job)) => Course::Ended(status_over_streams(rt, alloc, &job)),
        Ok(Order::Serve(service)) => Course::Serves(service),
        Ok(Order::Journal(path)) => Course::Checks(path),
        Err(status) => Course::Ended(status),
    }
}

/// Does the job over the program's own streams, reports a fault on standard error, and returns the status. These streams do not show what
/// they hold, so what was read and written is stated at `run_job`.
fn status_over_streams<R: Input + Print + Eprint>(rt: &R, alloc: Global, job: &Job<'_>) -> Status
    ensures { EndsSomehow job.now result }
{
    let mut reader = ErrorRecorder::new(rt.reader());
    let mut writer = ErrorRecorder::new(io::writer(rt));
    let ran = run_job(alloc, job, &mut reader, &mut writer);
    status_of_run(rt, ran, failure_of(reader.error(), writer.error()))
}

/// What failed, of a reader and a writer with these errors.
fn failure_of(reading: Option<io::Error>, writing: Option<io::Error>) -> Option<Failure<'static>>
    ensures { result ≡ first_failure reading writing }
{
    let (device, reason) = match (reading, writing) {
        (Some(reason), _) => (Device::Input, reason),
        (None, Some(reason)) => (Device::Output, reason),
        (None, None) => return None,
    };
    Some(Failure {
        device,
        reason: Reason::System(reason),
    })
}

/// Does the job over any reader and writer, and returns the status. The bounds of `play` and `script` are the greatest ones.
///
/// # Errors
///
/// What ended the run early.
pub fn run_job<R: Read, W: Write>(
    alloc: Global,
    job: &Job<'_>,
    reader: &mut R,
    writer: &mut W,
) -> Result<Status, RunFault>
    ensures { Ends job.now (R.remaining reader.old) (R.remaining reader.new) (W.contents writer.old)
        (W.contents writer.new) (end_status result) }
{
    match job {
        Job::Start(number) => after_answer(start_run(*number, writer)),
        Job::Moves(fen) => after_answer(moves_run(alloc, fen.as_bytes(), writer)),
        Job::Play(number) => {
            let bounds = ScriptLimits::greatest(default_limits());
            after_lines(play_run(alloc, *number, reader, writer, bounds))
        }
        Job::Script(limits) => {
            let bounds = ScriptLimits::greatest(*limits);
            after_lines(script_run(alloc, reader, writer, bounds))
        }
        Job::Version => after_line(version_run(VERSION, writer)),
    }
}

/// The status after a run that answers one argument: whether the argument was good.
fn after_answer(ran: Result<bool, RunFault>) -> Result<Status, RunFault>
    ensures { MatchResult ran (λ good. end_status result ≡ cond good Status.Done Status.Refused)
        (λ fault. end_status result ≡ fault_status fault) }
{
    match ran {
        Ok(true) => Ok(Status::Done),
        Ok(false) => Ok(Status::Refused),
        Err(fault) => Err(fault),
    }
}

/// The status after a line that cannot be refused.
fn after_line(ran: Result<(), RunFault>) -> Result<Status, RunFault>
    ensures { MatchResult ran (λ _. end_status result ≡ Status.Done) (λ fault. end_status result ≡ fault_status fault) }
{
    match ran {
        Ok(()) => Ok(Status::Done),
        Err(fault) => Err(fault),
    }
}

/// The status after a run over lines, however many there were.
fn after_lines(ran: Result<u64, RunFault>) -> Result<Status, RunFault>
    ensures { MatchResult ran (λ count. end_status result ≡ Status.Done) (λ fault. end_status result ≡ fault_status fault) }
{
    match ran {
        Ok(_) => Ok(Status::Done),
        Err(fault) => Err(fault),
    }
}

/// The status of a run. If a fault ended it, reports that on standard error, and what failed.
fn status_of_run<E: Eprint>(
    err: &E,
    ran: Result<Status, RunFault>,
    failure: Option<Failure<'_>>,
) -> Status
    ensures { result ≡ end_status ran }
{
    match ran {
        Ok(status) => status,
        Err(fault) => {
            // If a start was refused, the output has already said so.
            if fault != RunFault::BadStart {
                // The status reports the fault even if standard error is closed.
                let _ = err.eprint(Report { fault, failure });
            }
            status_of_fault(fault)
        }
    }
}

/// The status of a run that a fault ended.
fn status_of_fault(fault: RunFault) -> Status
    ensures { result ≡ fault_status fault }
{
    match fault {
        RunFault::Read | RunFault::Write | RunFault::TooLong => Status::DeviceFailed,
        RunFault::OutOfMemory => Status::OutOfMemory,
        RunFault::BadStart => Status::Refused,
    }
}
