//! The line engine: it reads lines, answers each and writes the answers, within bounds on lines and bytes.

ghost use Rattle.std.specs.Prelude.{◌≡◌, ◌+◌, ◌≤◌, length, IfOk, IfErr, OnOk};
ghost use Rattle.relay960_engines.specs.Failures.{reads_failed, writes_failed};
ghost use Rattle.relay960_engines.specs.Lines.{Before, Between, last_line};
ghost use Rattle.relay960_engines.specs.Runs.{Done, RunStopped, Wrote};
ghost use Rattle.relay960_engines.specs.Inner.Sending.{settled};
ghost use Rattle.relay960_engines.specs.Inner.Taking.{StopsReading, TakenAll, Unwritten, Within};

use crate::answerer::Answerer;
use crate::bounds::Bounds;
use crate::devices::{ReadDevice, WriteDevice};
use crate::due::Due;
use crate::fault::RunFault;
use crate::progress::{Progress, take_chunk};
use crate::speaker::Speaker;
use std::alloc::Global;

/// How many bytes one read asks for.
const CHUNK: usize = 4096;

/// Takes all bytes of the reader. Any error of a read is the fault; no read is retried.
fn take_all<R: ReadDevice, A: Speaker, W: WriteDevice>(
    alloc: Global,
    reader: &mut R,
    speaker: &mut A,
    writer: &mut W,
    progress: &mut Progress,
    bounds: Bounds,
) -> Result<(), RunFault>
    requires { Within bounds progress.old }
    ensures within { OnOk result (Within bounds progress.new) }
    ensures took { OnOk result (TakenAll A.gives speaker.old speaker.new progress.old progress.new
        (R.remaining reader.old) (R.remaining reader.new) (W.contents writer.old) (W.contents writer.new)) }
    ensures failed { IfErr result (λ fault. StopsReading A.gives speaker.old speaker.new progress.old bounds
        (R.remaining reader.old) (R.remaining reader.new) (W.contents writer.old) (W.contents writer.new) fault) }
    ensures reads_counted { R.failures reader.new ≡ reads_failed result (R.failures reader.old) }
    ensures writes_counted { W.failures writer.new ≡ writes_failed result (W.failures writer.old) }
{
    let mut buffer = [0u8; CHUNK];
    let mut due = Due::new();
    loop {
        match reader.read_some(&mut buffer) {
            Err(_) => return Err(RunFault::Read),
            Ok(0) => return Ok(()),
            Ok(count) => {
                let chunk = &buffer[..count];
                take_chunk(alloc, speaker, &mut due, writer, progress, bounds, chunk)?;
            }
        }
    }
}

/// Answers the last line, which has no line feed, if there is one, and returns the number of all lines.
fn answer_last<A: Speaker, W: WriteDevice>(
    alloc: Global,
    speaker: &mut A,
    writer: &mut W,
    progress: &Progress,
    bounds: Bounds,
) -> Result<u64, RunFault>
    requires { Within bounds progress.now }
    ensures wrote { OnOk result (Wrote (Between A.gives speaker.old speaker.new) (last_line progress.now.line)
        (W.contents writer.old) (W.contents writer.new)) }
    ensures count { IfOk result (λ n. n ≡ progress.now.answered + length (last_line progress.now.line)) }
    ensures within { IfOk result (λ n. n ≤ bounds.lines) }
    ensures failed { IfErr result (λ fault. Unwritten A.gives speaker.old speaker.new (last_line progress.now.line)
        (settled (W.contents writer.old)) (settled (W.contents writer.new)) fault) }
    ensures writes_counted { W.failures writer.new ≡ writes_failed result (W.failures writer.old) }
{
    if progress.line.is_empty() {
        return Ok(progress.answered);
    }
    let mut due = Due::new();
    speaker.speak(alloc, &mut due, writer, progress.line.as_slice())?;
    due.send(writer)?;
    Ok(progress.answered + 1)
}

/// `run_lines`, for any speaker.
pub fn run_speaker<R: ReadDevice, A: Speaker, W: WriteDevice>(
    alloc: Global,
    reader: &mut R,
    speaker: &mut A,
    writer: &mut W,
    bounds: Bounds,
) -> Result<u64, RunFault>
    ensures done { IfOk result (λ n. Done (Between A.gives speaker.old speaker.new) bounds (R.remaining reader.old)
        (R.remaining reader.new) (W.contents writer.old) (W.contents writer.new) n) }
    ensures failed { IfErr result (λ fault. RunStopped (Between A.gives speaker.old speaker.new)
        (Before A.gives speaker.old speaker.new) bounds (R.remaining reader.old) (R.remaining reader.new) (W.contents writer.old) (W.contents writer.new) fault) }
    ensures reads_counted { R.failures reader.new ≡ reads_failed result (R.failures reader.old) }
    ensures writes_counted { W.failures writer.new ≡ writes_failed result (W.failures writer.old) }
{
    let Ok(mut progress) = Progress::new(alloc) else {
        return Err(RunFault::OutOfMemory);
    };
    take_all(alloc, reader, speaker, writer, &mut progress, bounds)?;
    answer_last(alloc, speaker, writer, &progress, bounds)
}

/// Answers each line of the reader on the writer, and returns the number of lines. A line ends with a line feed; a last
/// piece without one is a line if it is not empty. The answerer is given the first `KEPT` bytes of a line. At most
/// as many lines are answered and as many bytes taken as the bounds allow.
///
/// # Errors
///
/// `Read` if a read failed: the lines that ended before were answered. `Write` if a write failed: a prefix of the
/// answers was written. `TooLong` if there is a byte after the lines or the bytes that the bounds allow: the lines that end
/// within both bounds were answered. `OutOfMemory` if there was no memory to begin, and nothing was read; or for the answer to a
/// line: all lines before it were answered, and neither it nor any line after it was.
pub fn run_lines<R: ReadDevice, A: Answerer, W: WriteDevice>(
    alloc: Global,
    reader: &mut R,
    answerer: &mut A,
    writer: &mut W,
    bounds: Bounds,
) -> Result<u64, RunFault>
    ensures done { IfOk result (λ n. Done (Between A.gives answerer.old answerer.new) bounds (R.remaining reader.old)
        (R.remaining reader.new) (W.contents writer.old) (W.contents writer.new) n) }
    ensures failed { IfErr result (λ fault. RunStopped (Between A.gives answerer.old answerer.new)
        (Before A.gives answerer.old answerer.new) bounds (R.remaining reader.old) (R.remaining reader.new) (W.contents writer.old) (W.contents writer.new) fault) }
    ensures reads_counted { R.failures reader.new ≡ reads_failed result (R.failures reader.old) }
    ensures writes_counted { W.failures writer.new ≡ writes_failed result (W.failures writer.old) }
{
    run_speaker(alloc, reader, answerer, writer, bounds)
}
