//! How the bytes of a stream are taken, a line at a time. Each line is answered as soon as its line feed is seen, and the answers to
//! the lines of one read are written together.

ghost use Rattle.std.specs.Prelude.{◌≡◌, ◌<◌, ◌≤◌, ◌∷◌, [], length, take, IfOk, IfErr, OnOk};
ghost use Rattle.relay960_engines.specs.Failures.{writes_failed};
ghost use Rattle.relay960_engines.specs.Lines.{Between};
ghost use Rattle.relay960_engines.specs.Inner.Sending.{SentAnswers, output_of, settled};
ghost use Rattle.relay960_engines.specs.Inner.Taking.{StopsIn, TookBytes, Unwritten, Within, kept_behind};

use crate::bounds::Bounds;
use crate::devices::WriteDevice;
use crate::due::Due;
use crate::fault::RunFault;
use crate::kept_line::{KEPT, KeptLine};
use crate::pieces::{front, line_end};
use crate::speaker::Speaker;
use std::alloc::{AllocError, Global};

/// How far a run has got.
#[derive(Drop)]
pub struct Progress {
    /// What is kept of the line that is being read.
    pub line: KeptLine,
    /// How many lines were answered.
    pub answered: u64,
    /// How many bytes were taken.
    pub taken: u64,
}

impl Progress {
    /// The progress of a run that begins.
    ///
    /// # Errors
    ///
    /// There was no memory for the line.
    pub fn new(alloc: Global) -> Result<Progress, AllocError>
        ensures line { IfOk result (λ progress. progress.line ≡ []) }
        ensures answered { IfOk result (λ progress. progress.answered ≡ 0) }
        ensures taken { IfOk result (λ progress. progress.taken ≡ 0) }
    {
        Ok(Progress {
            line: KeptLine::new(alloc)?,
            answered: 0,
            taken: 0,
        })
    }
}

/// Adds the answer to the line that was begun and that the piece ends, and begins the next line. A line of which nothing was begun is
/// answered in place, without a copy.
fn answer_ended<A: Speaker, W: WriteDevice>(
    alloc: Global,
    speaker: &mut A,
    due: &mut Due,
    writer: &mut W,
    begun: &mut KeptLine,
    piece: &[u8],
) -> Result<(), RunFault>
    ensures none { OnOk result (begun.new ≡ []) }
    ensures sent { OnOk result (SentAnswers (Between A.gives speaker.old speaker.new) (kept_behind begun.old piece.now ∷ [])
        (output_of (W.contents writer.old) due.old) (output_of (W.contents writer.new) due.new)) }
    ensures failed { IfErr result (λ fault. Unwritten A.gives speaker.old speaker.new (kept_behind begun.old piece.now ∷ [])
        (output_of (W.contents writer.old) due.old) (settled (W.contents writer.new)) fault) }
    ensures writes_counted { W.failures writer.new ≡ writes_failed result (W.failures writer.old) }
{
    if begun.is_empty() {
        return speaker.speak(alloc, due, writer, front(piece, KEPT));
    }
    begun.extend(piece);
    speaker.speak(alloc, due, writer, begun.as_slice())?;
    begun.clear();
    Ok(())
}

/// Takes the front of the bytes, up to and including the first line feed, as far as both bounds allow, and returns the number of its bytes.
/// A line feed ends the line, which is answered; the other bytes belong to it. Before any fault what was due is written.
fn take_front<A: Speaker, W: WriteDevice>(
    alloc: Global,
    speaker: &mut A,
    due: &mut Due,
    writer: &mut W,
    progress: &mut Progress,
    bounds: Bounds,
    bytes: &[u8],
) -> Result<usize, RunFault>
    requires within { Within bounds progress.old }
    requires some { 0 < length bytes.now }
    ensures count { IfOk result (λ n. (0 < n) × (n ≤ length bytes.now)) }
    ensures within { OnOk result (Within bounds progress.new) }
    ensures took { IfOk result (λ n. TookBytes A.gives speaker.old speaker.new progress.old progress.new (take n bytes.now)
        (output_of (W.contents writer.old) due.old) (output_of (W.contents writer.new) due.new)) }
    ensures failed { IfErr result (λ fault. StopsIn A.gives speaker.old speaker.new progress.old bounds
        bytes.now (output_of (W.contents writer.old) due.old) (settled (W.contents writer.new)) fault) }
    ensures writes_counted { W.failures writer.new ≡ writes_failed result (W.failures writer.old) }
{
    let end = line_end(bytes);
    let count = if end < bytes.len() { end + 1 } else { end };
    if progress.answered >= bounds.lines || count as u64 > bounds.bytes - progress.taken {
        due.send(writer)?;
        return Err(RunFault::TooLong);
    }
    progress.taken += count as u64;
    if end < bytes.len() {
        answer_ended(
            alloc,
            speaker,
            due,
            writer,
            &mut progress.line,
            &bytes[..end],
        )?;
        progress.answered += 1;
    } else {
        progress.line.extend(bytes);
    }
    Ok(count)
}

/// Takes the bytes, as far as both bounds allow. Before any fault what was due is written.
fn take_bytes<A: Speaker, W: WriteDevice>(
    alloc: Global,
    speaker: &mut A,
    due: &mut Due,
    writer: &mut W,
    progress: &mut Progress,
    bounds: Bounds,
    chunk: &[u8],
) -> Result<(), RunFault>
    requires { Within bounds progress.old }
    ensures within { OnOk result (Within bounds progress.new) }
    ensures took { OnOk result (TookBytes A.gives speaker.old speaker.new progress.old progress.new chunk.now
        (output_of (W.contents writer.old) due.old) (output_of (W.contents writer.new) due.new)) }
    ensures failed { IfErr result (λ fault. StopsIn A.gives speaker.old speaker.new progress.old bounds
        chunk.now (output_of (W.contents writer.old) due.old) (settled (W.contents writer.new)) fault) }
    ensures writes_counted { W.failures writer.new ≡ writes_failed result (W.failures writer.old) }
{
    let mut taken = 0;
    while taken < chunk.len() {
        taken += take_front(
            alloc,
            speaker,
            due,
            writer,
            progress,
            bounds,
            &chunk[taken..],
        )?;
    }
    Ok(())
}

/// Takes the bytes of one read, as far as both bounds allow, and writes the answers to their lines together.
pub fn take_chunk<A: Speaker, W: WriteDevice>(
    alloc: Global,
    speaker: &mut A,
    due: &mut Due,
    writer: &mut W,
    progress: &mut Progress,
    bounds: Bounds,
    chunk: &[u8],
) -> Result<(), RunFault>
    requires { Within bounds progress.old }
    ensures within { OnOk result (Within bounds progress.new) }
    ensures none { OnOk result (due.new ≡ []) }
    ensures took { OnOk result (TookBytes A.gives speaker.old speaker.new progress.old progress.new chunk.now
        (output_of (W.contents writer.old) due.old) (settled (W.contents writer.new))) }
    ensures failed { IfErr result (λ fault. StopsIn A.gives speaker.old speaker.new progress.old bounds
        chunk.now (output_of (W.contents writer.old) due.old) (settled (W.contents writer.new)) fault) }
    ensures writes_counted { W.failures writer.new ≡ writes_failed result (W.failures writer.old) }
{
    take_bytes(alloc, speaker, due, writer, progress, bounds, chunk)?;
    due.send(writer)
}
