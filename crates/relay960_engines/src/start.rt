//! The line of a start number.

ghost use Rattle.std.specs.Prelude.{◌≡◌, ◌↔◌, ◌<◌, IsTrue, IfOk, IfErr, OnOk, OnErr};
ghost use Rattle.std.specs.Io.KnownBytes.{Appends};
ghost use Rattle.relay960_engines.specs.Failures.{writes_failed};
ghost use Rattle.relay960_engines.specs.Start.{refusal_line, start_line};
ghost use Rattle.relay960_engines.specs.Writing.{AppendsPart};

use crate::devices::WriteDevice;
use crate::fault::RunFault;
use crate::writing::write_line;
use c960_board::{Position, STARTS, write_fen};

/// Writes the line of a number from 960 on, which is refused.
pub fn refuse<W: WriteDevice>(writer: &mut W) -> Result<(), RunFault>
    ensures whole { OnOk result (Appends (W.contents writer.old) (W.contents writer.new) refusal_line) }
    ensures part { OnErr result (AppendsPart (W.contents writer.old) (W.contents writer.new) refusal_line) }
    ensures fault { IfErr result (λ fault. fault ≡ RunFault.Write) }
    ensures writes_counted { W.failures writer.new ≡ writes_failed result (W.failures writer.old) }
{
    write_line(writer, b"refused 3 BadStart")
}

/// Writes the line of start `number`: its FEN, or `refused 3 BadStart` from 960 on. It returns whether there is such a
/// start. On a fault, which only the writer can cause, a prefix of the line was written.
pub fn start_run<W: WriteDevice>(number: u16, writer: &mut W) -> Result<bool, RunFault>
    ensures answer { IfOk result (λ good. IsTrue good ↔ (number < STARTS)) }
    ensures whole { OnOk result (Appends (W.contents writer.old) (W.contents writer.new) (start_line number)) }
    ensures part { OnErr result (AppendsPart (W.contents writer.old) (W.contents writer.new) (start_line number)) }
    ensures fault { IfErr result (λ fault. fault ≡ RunFault.Write) }
    ensures writes_counted { W.failures writer.new ≡ writes_failed result (W.failures writer.old) }
{
    let Some(position) = Position::start(number) else {
        refuse(writer)?;
        return Ok(false);
    };
    write_line(writer, write_fen(&position).as_slice())?;
    Ok(true)
}
