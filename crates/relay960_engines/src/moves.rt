//! The lines for a text in FEN: its legal moves and its state.

ghost use Rattle.std.specs.Prelude.{◌≡◌, ◌++◌, IfOk, IfErr, OnOk, OnErr};
ghost use Rattle.std.specs.Io.KnownBytes.{Appends};
ghost use Rattle.relay960_engines.specs.Failures.{writes_failed};
ghost use Rattle.relay960_engines.specs.Moves.{Answered, Failed, FailedText, moves_lines, parted, state_name};
ghost use Rattle.relay960_engines.specs.Writing.{AppendsPart, line};

use crate::devices::WriteDevice;
use crate::fault::RunFault;
use crate::listing::write_moves;
use crate::writing::{write_line, write_numbered};
use c960_board::{Move, read_fen};
use c960_rules::{Lawful, State, legal_moves, state};
use std::alloc::Global;

/// The name of the state.
fn state_name(state: State) -> &'static str
    ensures { result.now ≡ state_name state }
{
    match state {
        State::Going => "going",
        State::Checkmate => "checkmate",
        State::Stalemate => "stalemate",
    }
}

/// Writes the line of the moves and that of the state.
#[tactic(auto, using(crate::proofs::Prefixes::part_before, crate::proofs::Prefixes::on_err_behind))]
fn write_lines<W: WriteDevice>(writer: &mut W, moves: &[Move], state: State) -> Result<(), RunFault>
    ensures whole { OnOk result (Appends (W.contents writer.old) (W.contents writer.new)
        (line (parted moves.now) ++ line (state_name state))) }
    ensures part { OnErr result (AppendsPart (W.contents writer.old) (W.contents writer.new)
        (line (parted moves.now) ++ line (state_name state))) }
    ensures fault { IfErr result (λ fault. fault ≡ RunFault.Write) }
    ensures writes_counted { W.failures writer.new ≡ writes_failed result (W.failures writer.old) }
{
    write_moves(writer, moves)?;
    write_line(writer, state_name(state).as_bytes())
}

/// Writes the lines of a lawful position with that state. All memory is allocated before the first write.
fn write_lawful<W: WriteDevice>(
    alloc: Global,
    lawful: &Lawful,
    state: State,
    writer: &mut W,
) -> Result<(), RunFault>
    ensures whole { OnOk result (Appends (W.contents writer.old) (W.contents writer.new)
        (moves_lines lawful.now state)) }
    ensures part { IfErr result (λ fault. FailedText (moves_lines lawful.now state) fault (W.contents writer.old)
        (W.contents writer.new)) }
    ensures writes_counted { W.failures writer.new ≡ writes_failed result (W.failures writer.old) }
{
    match legal_moves(alloc, lawful) {
        Ok(moves) => write_lines(writer, moves.as_slice(), state),
        Err(_) => Err(RunFault::OutOfMemory),
    }
}

/// Writes the answer to a text in Shredder-FEN: the line of its first fault; or `unlawful` if the side not to move is
/// in check; or one line with the legal moves and one with the state, `going`, `checkmate` or `stalemate`. These depend
/// on the position alone, whatever its counters. It returns whether the text is a lawful position's.
///
/// # Errors
///
/// `Write` if the writer failed: a prefix of the answer was written. `OutOfMemory` if there was no memory for the
/// list of a lawful position's moves: nothing was written.
pub fn moves_run<W: WriteDevice>(
    alloc: Global,
    fen: &[u8],
    writer: &mut W,
) -> Result<bool, RunFault>
    ensures whole { IfOk result (λ good. Answered fen.now good (W.contents writer.old) (W.contents writer.new)) }
    ensures part { IfErr result (λ fault. Failed fen.now fault (W.contents writer.old) (W.contents writer.new)) }
    ensures writes_counted { W.failures writer.new ≡ writes_failed result (W.failures writer.old) }
{
    let position = match read_fen(fen) {
        Ok(position) => position,
        Err(fault) => {
            write_numbered(writer, b"fault ", fault.code(), fault.name())?;
            return Ok(false);
        }
    };
    let Ok(lawful) = Lawful::of(position) else {
        write_line(writer, b"unlawful")?;
        return Ok(false);
    };
    write_lawful(alloc, &lawful, state(&lawful), writer)?;
    Ok(true)
}
