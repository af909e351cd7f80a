//! The line of the program's version.

ghost use Rattle.std.specs.Prelude.{◌≡◌, IfErr, OnOk, OnErr};
ghost use Rattle.std.specs.Io.KnownBytes.{Appends};
ghost use Rattle.relay960_engines.specs.Failures.{writes_failed};
ghost use Rattle.relay960_engines.specs.Version.{version_line};
ghost use Rattle.relay960_engines.specs.Writing.{AppendsPart};

use crate::devices::WriteDevice;
use crate::fault::RunFault;
use crate::writing::write_pieces;

/// Writes the line of the program's name and this version. On a fault, which only the writer can cause, a prefix of it was written.
pub fn version_run<W: WriteDevice>(version: &str, writer: &mut W) -> Result<(), RunFault>
    ensures whole { OnOk result (Appends (W.contents writer.old) (W.contents writer.new) (version_line version.now)) }
    ensures part { OnErr result (AppendsPart (W.contents writer.old) (W.contents writer.new) (version_line version.now)) }
    ensures fault { IfErr result (λ fault. fault ≡ RunFault.Write) }
    ensures writes_counted { W.failures writer.new ≡ writes_failed result (W.failures writer.old) }
{
    write_pieces(writer, &["relay960 ".as_bytes(), version.as_bytes(), b"\n"])
}
