//! The texts that answer the lines of a live game.

ghost use Rattle.std.specs.Prelude.{◌≡◌, ◌++◌, IfOk, OnOk};
ghost use Rattle.std.specs.List.{flat_map};
ghost use Rattle.c960_board.specs.Fen.Canonical.{canonical};
ghost use Rattle.relay960_engines.specs.Play.{move_fault_line, over_line, refused_line};
ghost use Rattle.relay960_engines.specs.Writing.{line, numbered_line};

use crate::writing::write_numbered;
use c960_board::{MoveFault, Position, write_fen};
use c960_game::{Outcome, Refusal};
use std::alloc::{AllocError, Global};

/// How many bytes are reserved for the text after a move: the longest position's line and outcome's line fit, so that memory is
/// allocated once.
const ROOM: usize = 128;

/// Adds the pieces to the text, one after the other.
fn add_pieces(text: &mut Vec<u8>, pieces: &[&[u8]]) -> Result<(), AllocError>
    ensures { OnOk result (text.new.items ≡ text.old.items ++ flat_map (λ piece. piece.now) pieces.now) }
{
    for piece in pieces {
        text.extend_from_slice(piece)?;
    }
    Ok(())
}

/// Adds the line of the outcome, if the game is over.
fn add_outcome(text: &mut Vec<u8>, outcome: Option<Outcome>) -> Result<(), AllocError>
    ensures { OnOk result (text.new.items ≡ text.old.items ++ over_line outcome) }
{
    match outcome {
        Some(outcome) => add_pieces(text, &[b"over ", outcome.text().as_bytes(), b"\n"]),
        None => Ok(()),
    }
}

/// The line of the position after a move, followed by the line of the outcome if the move ends the game.
pub fn played_text(
    alloc: Global,
    position: &Position,
    outcome: Option<Outcome>,
) -> Result<Vec<u8>, AllocError>
    ensures { IfOk result (λ text. text.items ≡ line (canonical position.now) ++ over_line outcome) }
{
    let mut text = Vec::with_capacity(alloc, ROOM)?;
    add_pieces(&mut text, &[write_fen(position).as_slice(), b"\n"])?;
    add_outcome(&mut text, outcome)?;
    Ok(text)
}

/// The line of a number and a name after a word.
fn numbered_text(alloc: Global, word: &[u8], number: u64, name: &str) -> Result<Vec<u8>, AllocError>
    ensures { IfOk result (λ text. text.items ≡ numbered_line word.now number name.now) }
{
    let mut text = Vec::new(alloc);
    match write_numbered(&mut text, word, number, name) {
        Ok(()) => Ok(text),
        // A vector refuses a write only for lack of memory.
        Err(_) => Err(AllocError),
    }
}

/// The line of a move that is refused: `refused 6 Illegal` and the like.
pub fn refused_text(alloc: Global, refusal: Refusal) -> Result<Vec<u8>, AllocError>
    ensures { IfOk result (λ text. text.items ≡ refused_line refusal) }
{
    numbered_text(alloc, b"refused ", refusal.code(), refusal.name())
}

/// The line of a text that is not a move: `fault 1 Length` and the like.
pub fn fault_text(alloc: Global, fault: MoveFault) -> Result<Vec<u8>, AllocError>
    ensures { IfOk result (λ text. text.items ≡ move_fault_line fault) }
{
    numbered_text(alloc, b"fault ", fault.code(), fault.name())
}
