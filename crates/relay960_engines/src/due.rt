//! The answers that are due to a writer: those of one read are written together.

ghost use Rattle.std.specs.Prelude.{◌≡◌, ◌++◌, [], true, false, OnOk, OnErr, IfErr};
ghost use Rattle.std.specs.Io.KnownBytes.{Appends};
ghost use Rattle.relay_messages.specs.Answers.{answer_text};
ghost use Rattle.relay960_engines.specs.Failures.{writes_failed};
ghost use Rattle.relay960_engines.specs.Writing.{AppendsPart, line};
ghost use Rattle.relay960_engines.specs.Inner.Sending.{Sends, output_of};

use crate::devices::WriteDevice;
use crate::fault::RunFault;
use crate::writing::write_whole;
use arrayvec::ArrayVec;
use relay_messages::{Answer, encode_within};
use std::marker::Model;

/// How many bytes there is room for.
const ROOM: usize = 8192;

/// The bytes that are due: they answer lines that were read, and have not been written yet. They allocate nothing. Contracts see the list
/// of the bytes.
#[derive(Drop)]
pub struct Due {
    bytes: ArrayVec<u8, ROOM>,
}

impl Model for Due {
    ghost use Rattle.std.specs.Prelude.{ℕ, List};

    ghost Value = { List ℕ };

    ghost view = { λ due. due.bytes.items };
}

impl Due {
    /// Nothing is due.
    pub fn new() -> Due
        ensures { result ≡ [] }
    {
        Due {
            bytes: ArrayVec::new(),
        }
    }

    /// Writes all that is due.
    pub fn send<W: WriteDevice>(&mut self, writer: &mut W) -> Result<(), RunFault>
        ensures none { OnOk result (self.new ≡ []) }
        ensures whole { OnOk result (Appends (W.contents writer.old) (W.contents writer.new) self.old) }
        ensures part { OnErr result (AppendsPart (W.contents writer.old) (W.contents writer.new) self.old) }
        ensures fault { IfErr result (λ fault. fault ≡ RunFault.Write) }
        ensures writes_counted { W.failures writer.new ≡ writes_failed result (W.failures writer.old) }
    {
        write_whole(writer, self.bytes.as_slice())?;
        self.bytes.clear();
        Ok(())
    }

    /// Adds a text after what is due. If there is no room for it, what was due is written first, and then the text itself if it has more
    /// bytes than there is ever room for.
    pub fn add<W: WriteDevice>(&mut self, writer: &mut W, text: &[u8]) -> Result<(), RunFault>
        ensures sent { OnOk result (Sends (output_of (W.contents writer.old) self.old)
            (output_of (W.contents writer.new) self.new) text.now) }
        ensures part { OnErr result (AppendsPart (W.contents writer.old) (W.contents writer.new) (self.old ++ text.now)) }
        ensures fault { IfErr result (λ fault. fault ≡ RunFault.Write) }
        ensures writes_counted { W.failures writer.new ≡ writes_failed result (W.failures writer.old) }
    {
        if self.bytes.try_extend_from_slice(text).is_ok() {
            return Ok(());
        }
        // The order of the answers stays.
        self.send(writer)?;
        if self.bytes.try_extend_from_slice(text).is_ok() {
            return Ok(());
        }
        write_whole(writer, text)
    }

    /// Puts the line of an answer after what is due, if there is room for it. There is for any answer if nothing is due.
    fn put_line(&mut self, answer: &Answer) -> bool
        ensures put { result ≡ true → self.new ≡ self.old ++ line (answer_text answer.now) }
        ensures kept { result ≡ false → self.new ≡ self.old }
        ensures room { self.old ≡ [] → result ≡ true }
    {
        if !encode_within(answer, &mut self.bytes) {
            return false;
        }
        // It leaves room for one byte more.
        self.bytes.push(b'\n');
        true
    }

    /// Adds the line of an answer after what is due. If there is no room for it, what was due is written first.
    pub fn add_answer<W: WriteDevice>(
        &mut self,
        writer: &mut W,
        answer: &Answer,
    ) -> Result<(), RunFault>
        ensures sent { OnOk result (Sends (output_of (W.contents writer.old) self.old)
            (output_of (W.contents writer.new) self.new) (line (answer_text answer.now))) }
        ensures part { OnErr result (AppendsPart (W.contents writer.old) (W.contents writer.new)
            (self.old ++ line (answer_text answer.now))) }
        ensures fault { IfErr result (λ fault. fault ≡ RunFault.Write) }
        ensures writes_counted { W.failures writer.new ≡ writes_failed result (W.failures writer.old) }
    {
        if !self.put_line(answer) {
            self.send(writer)?;
            // Now there is.
            let _ = self.put_line(answer);
        }
        Ok(())
    }
}
