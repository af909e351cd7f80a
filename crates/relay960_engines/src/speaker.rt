//! Speakers, which add the answers to the lines of a run to what is due. Each answerer is one. A script is one by a way of its own: an
//! answer's text goes there from its pieces, and is never a text in memory.

ghost use Rattle.std.specs.Prelude.{◌≡◌, ◌∷◌, [], ℕ, List, take, Option, OnOk, IfErr};
ghost use Rattle.relay960_engines.specs.declared.kept_line.TheConstants.{KEPT};
ghost use Rattle.relay960_engines.specs.Failures.{writes_failed};
ghost use Rattle.relay960_engines.specs.Lines.{Between};
ghost use Rattle.relay960_engines.specs.Inner.Sending.{SentAnswers, output_of, settled};
ghost use Rattle.relay960_engines.specs.Inner.Taking.{Unwritten};

use crate::answerer::Answerer;
use crate::devices::WriteDevice;
use crate::due::Due;
use crate::fault::RunFault;
use std::alloc::Global;

/// It answers lines, each of which leads from one state to the next, as an answerer does.
pub trait Speaker {
    /// In a state a line is answered by these bytes, or by none if there was no memory for them, which leads to a state.
    ghost gives: { Self → List ℕ → Option (List ℕ) → Self → Type 0 };

    /// Adds the answer to a line after what is due. If there is no memory for it, what was due is written.
    fn speak<W: WriteDevice>(
        &mut self,
        alloc: Global,
        due: &mut Due,
        writer: &mut W,
        line: &[u8],
    ) -> Result<(), RunFault>
        ensures sent { OnOk result (SentAnswers (Between gives self.old self.new) (line.now ∷ [])
            (output_of (W.contents writer.old) due.old) (output_of (W.contents writer.new) due.new)) }
        ensures failed { IfErr result (λ fault. Unwritten gives self.old self.new (line.now ∷ [])
            (output_of (W.contents writer.old) due.old) (settled (W.contents writer.new)) fault) }
        ensures writes_counted { W.failures writer.new ≡ writes_failed result (W.failures writer.old) };

    /// A line is answered as its first `KEPT` bytes are.
    ghost cut: { (s : Self) (l : List ℕ) (bytes : Option (List ℕ)) (t : Self) → gives s (take KEPT l) bytes t → gives s l bytes t };
}

impl<A: Answerer> Speaker for A {
    ghost gives = { A.gives };

    ghost cut = { λ s l bytes t given. A.cut s l bytes t given };

    fn speak<W: WriteDevice>(
        &mut self,
        alloc: Global,
        due: &mut Due,
        writer: &mut W,
        line: &[u8],
    ) -> Result<(), RunFault> {
        match self.answer(alloc, line) {
            Ok(answer) => due.add(writer, answer.as_slice()),
            Err(_) => {
                due.send(writer)?;
                Err(RunFault::OutOfMemory)
            }
        }
    }
}
