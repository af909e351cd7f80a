//! The line of the legal moves: their texts with single spaces between them.

ghost use Rattle.std.specs.Prelude.{◌≡◌, ◌∷◌, IfErr, OnOk, OnErr};
ghost use Rattle.std.specs.Io.KnownBytes.{Appends};
ghost use Rattle.std.specs.List.{flat_map};
ghost use Rattle.relay960_engines.specs.Failures.{writes_failed};
ghost use Rattle.relay960_engines.specs.Moves.{parted, spaced};
ghost use Rattle.relay960_engines.specs.Writing.{AppendsPart, line};

use crate::devices::WriteDevice;
use crate::fault::RunFault;
use crate::writing::{write_pieces, write_whole};
use c960_board::{Move, move_bytes};

/// Writes a space and the text of each move.
#[tactic(auto, using(crate::proofs::Items::items_more, crate::proofs::Items::items_part))]
fn write_spaced<W: WriteDevice>(writer: &mut W, moves: &[Move]) -> Result<(), RunFault>
    ensures whole { OnOk result (Appends (W.contents writer.old) (W.contents writer.new) (flat_map spaced moves.now)) }
    ensures part { OnErr result (AppendsPart (W.contents writer.old) (W.contents writer.new)
        (flat_map spaced moves.now)) }
    ensures fault { IfErr result (λ fault. fault ≡ RunFault.Write) }
    ensures writes_counted { W.failures writer.new ≡ writes_failed result (W.failures writer.old) }
{
    for m in moves {
        let text = move_bytes(*m);
        write_pieces(writer, &[b" ", text.as_slice()])?;
    }
    Ok(())
}

/// Writes the texts of the moves with single spaces between them.
#[tactic(auto, using(crate::proofs::Prefixes::part_before, crate::proofs::Prefixes::on_err_behind))]
fn write_first<W: WriteDevice>(
    writer: &mut W,
    first: &Move,
    others: &[Move],
) -> Result<(), RunFault>
    ensures whole { OnOk result (Appends (W.contents writer.old) (W.contents writer.new)
        (parted (first.now ∷ others.now))) }
    ensures part { OnErr result (AppendsPart (W.contents writer.old) (W.contents writer.new)
        (parted (first.now ∷ others.now))) }
    ensures fault { IfErr result (λ fault. fault ≡ RunFault.Write) }
    ensures writes_counted { W.failures writer.new ≡ writes_failed result (W.failures writer.old) }
{
    write_whole(writer, move_bytes(*first).as_slice())?;
    write_spaced(writer, others)
}

/// Writes the texts of the moves with single spaces between them, or nothing if there is no move.
fn write_parted<W: WriteDevice>(writer: &mut W, moves: &[Move]) -> Result<(), RunFault>
    ensures whole { OnOk result (Appends (W.contents writer.old) (W.contents writer.new) (parted moves.now)) }
    ensures part { OnErr result (AppendsPart (W.contents writer.old) (W.contents writer.new) (parted moves.now)) }
    ensures fault { IfErr result (λ fault. fault ≡ RunFault.Write) }
    ensures writes_counted { W.failures writer.new ≡ writes_failed result (W.failures writer.old) }
{
    match moves {
        [] => Ok(()),
        [first, others @ ..] => write_first(writer, first, others),
    }
}

/// Writes the line of the moves.
#[tactic(auto, using(crate::proofs::Prefixes::part_before, crate::proofs::Prefixes::on_err_behind))]
pub fn write_moves<W: WriteDevice>(writer: &mut W, moves: &[Move]) -> Result<(), RunFault>
    ensures whole { OnOk result (Appends (W.contents writer.old) (W.contents writer.new) (line (parted moves.now))) }
    ensures part { OnErr result (AppendsPart (W.contents writer.old) (W.contents writer.new)
        (line (parted moves.now))) }
    ensures fault { IfErr result (λ fault. fault ≡ RunFault.Write) }
    ensures writes_counted { W.failures writer.new ≡ writes_failed result (W.failures writer.old) }
{
    write_parted(writer, moves)?;
    write_whole(writer, b"\n")
}
