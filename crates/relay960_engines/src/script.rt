//! A script over a relay: each line is a command, and its answer is one line.

ghost use Rattle.std.specs.Prelude.{◌≡◌, IfOk, IfErr};
ghost use Rattle.relay960_engines.specs.Failures.{reads_failed, writes_failed};
ghost use Rattle.relay960_engines.specs.Inner.ScriptSteps.{LeadsTo};
ghost use Rattle.relay960_engines.specs.Script.{Ran, ScriptStopped};

use crate::devices::{ReadDevice, WriteDevice};
use crate::due::Due;
use crate::fault::RunFault;
use crate::limits::ScriptLimits;
use crate::lines::run_speaker;
use crate::speaker::Speaker;
use relay_core::Stepper;
use relay_live::LiveRelay;
use relay_messages::{Answer, Decoder};
use std::alloc::Global;

/// The speaker of a script, over any kind of relay.
#[derive(Drop)]
pub struct Script<S: Stepper> {
    /// The relay after the commands so far.
    pub relay: S,
    /// What decodes the lines.
    pub decoder: Decoder,
}

impl<S: Stepper> Script<S> {
    /// The answer to a line. If the line is a command, the relay makes its step.
    fn reply(&mut self, line: &[u8]) -> Answer
        ensures { LeadsTo (S.record_of self.old.relay) line.now result (S.record_of self.new.relay) }
    {
        match self.decoder.decode(line) {
            Ok(command) => Answer::Reply(self.relay.step(command)),
            Err(fault) => Answer::Fault(fault),
        }
    }
}

/// No answer takes memory, so that each can be given.
impl<S: Stepper> Speaker for Script<S> {
    ghost use Rattle.relay960_engines.specs.Inner.ScriptSteps.{ScriptGives, answers_cut};

    ghost gives = { λ s l bytes t. ScriptGives (S.record_of s.relay) l bytes (S.record_of t.relay) };

    ghost cut = { λ s l bytes t given. answers_cut (S.record_of s.relay) l bytes (S.record_of t.relay) given };

    fn speak<W: WriteDevice>(
        &mut self,
        _alloc: Global,
        due: &mut Due,
        writer: &mut W,
        line: &[u8],
    ) -> Result<(), RunFault> {
        let answer = self.reply(line);
        due.add_answer(writer, &answer)
    }
}

/// Runs a script over a relay that has no board yet. It reads one command a line and writes its answer, at the latest before the next
/// read. It returns the number of lines. If a line could not be read for lack of memory, or an Open or a Follow was
/// refused for that reason, the answer says so, and the run goes on.
///
/// # Errors
///
/// `Read` if a read failed: the lines that ended before were answered. `Write` if a write failed: a prefix of the
/// answers was written. `TooLong` if there is a byte after the lines or bytes that the limits allow: the lines that end
/// within both were answered. `OutOfMemory` if there was no memory for the relay or for what is kept of a line, and nothing was read. An
/// answer takes no memory.
pub fn script_run<R: ReadDevice, W: WriteDevice>(
    alloc: Global,
    reader: &mut R,
    writer: &mut W,
    limits: ScriptLimits,
) -> Result<u64, RunFault>
    ensures done { IfOk result (λ count. Ran limits.limits limits.bounds (R.remaining reader.old)
        (R.remaining reader.new) (W.contents writer.old) (W.contents writer.new) count) }
    ensures failed { IfErr result (λ fault. ScriptStopped limits.limits limits.bounds (R.remaining reader.old)
        (R.remaining reader.new) (W.contents writer.old) (W.contents writer.new) fault) }
    ensures reads_counted { R.failures reader.new ≡ reads_failed result (R.failures reader.old) }
    ensures writes_counted { W.failures writer.new ≡ writes_failed result (W.failures writer.old) }
{
    let Ok(relay) = LiveRelay::new(alloc, limits.limits()) else {
        return Err(RunFault::OutOfMemory);
    };
    let decoder = Decoder::new(alloc);
    let mut script = Script { relay, decoder };
    run_speaker(alloc, reader, &mut script, writer, limits.bounds())
}
