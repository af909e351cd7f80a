//! Whole lines on any writer, without memory.
//!
//! The standard `write_all` retries an interrupted write, and does not say what was written before an error. Here
//! each failed write is the fault, and what was written is a prefix.

ghost use Rattle.std.specs.Prelude.{◌≡◌, OnOk, OnErr, IfErr};
ghost use Rattle.std.specs.Io.KnownBytes.{Appends};
ghost use Rattle.std.specs.List.{flat_map};
ghost use Rattle.relay960_engines.specs.Failures.{writes_failed};
ghost use Rattle.relay960_engines.specs.Writing.{AppendsPart, line, numbered_line};

use crate::devices::WriteDevice;
use crate::fault::RunFault;
use itoa::Buffer;

/// Writes the whole text, or on a fault a prefix of it.
#[tactic(auto, using(crate::proofs::Prefixes::written_more, crate::proofs::Prefixes::part_written))]
pub fn write_whole<W: WriteDevice>(writer: &mut W, text: &[u8]) -> Result<(), RunFault>
    ensures whole { OnOk result (Appends (W.contents writer.old) (W.contents writer.new) text.now) }
    ensures part { OnErr result (AppendsPart (W.contents writer.old) (W.contents writer.new) text.now) }
    ensures fault { IfErr result (λ fault. fault ≡ RunFault.Write) }
    ensures writes_counted { W.failures writer.new ≡ writes_failed result (W.failures writer.old) }
{
    let mut written = 0;
    while written < text.len() {
        match writer.write_some(&text[written..]) {
            Ok(0) | Err(_) => return Err(RunFault::Write),
            Ok(taken) => written += taken,
        }
    }
    Ok(())
}

/// Writes the text and a line feed, or on a fault a prefix of them.
#[tactic(auto, using(crate::proofs::Prefixes::part_before, crate::proofs::Prefixes::on_err_behind))]
pub fn write_line<W: WriteDevice>(writer: &mut W, text: &[u8]) -> Result<(), RunFault>
    ensures whole { OnOk result (Appends (W.contents writer.old) (W.contents writer.new) (line text.now)) }
    ensures part { OnErr result (AppendsPart (W.contents writer.old) (W.contents writer.new) (line text.now)) }
    ensures fault { IfErr result (λ fault. fault ≡ RunFault.Write) }
    ensures writes_counted { W.failures writer.new ≡ writes_failed result (W.failures writer.old) }
{
    write_whole(writer, text)?;
    write_whole(writer, b"\n")
}

/// Writes the pieces one after the other, or on a fault a prefix of them.
#[tactic(auto, using(crate::proofs::Items::items_more, crate::proofs::Items::items_part))]
pub fn write_pieces<W: WriteDevice>(writer: &mut W, pieces: &[&[u8]]) -> Result<(), RunFault>
    ensures whole { OnOk result (Appends (W.contents writer.old) (W.contents writer.new)
        (flat_map (λ piece. piece.now) pieces.now)) }
    ensures part { OnErr result (AppendsPart (W.contents writer.old) (W.contents writer.new)
        (flat_map (λ piece. piece.now) pieces.now)) }
    ensures fault { IfErr result (λ fault. fault ≡ RunFault.Write) }
    ensures writes_counted { W.failures writer.new ≡ writes_failed result (W.failures writer.old) }
{
    for piece in pieces {
        write_whole(writer, piece)?;
    }
    Ok(())
}

/// Writes the line of a number and a name after a word, or on a fault a prefix of it.
pub fn write_numbered<W: WriteDevice>(
    writer: &mut W,
    word: &[u8],
    number: u64,
    name: &str,
) -> Result<(), RunFault>
    ensures whole { OnOk result (Appends (W.contents writer.old) (W.contents writer.new)
        (numbered_line word.now number name.now)) }
    ensures part { OnErr result (AppendsPart (W.contents writer.old) (W.contents writer.new)
        (numbered_line word.now number name.now)) }
    ensures fault { IfErr result (λ fault. fault ≡ RunFault.Write) }
    ensures writes_counted { W.failures writer.new ≡ writes_failed result (W.failures writer.old) }
{
    let mut buffer = Buffer::new();
    let digits = buffer.format(number);
    write_pieces(
        writer,
        &[word, digits.as_bytes(), b" ", name.as_bytes(), b"\n"],
    )
}
