//! The reader of Shredder-FEN.

ghost use Rattle.std.specs.Prelude.{◌≡◌, MatchResult, IfOk, IfErr, Ok, Err};
ghost use Rattle.c960_board.specs.Fen.Faults.{FaultIn, IsFault};
ghost use Rattle.c960_board.specs.Fen.Reading.{six_of};
ghost use Rattle.c960_board.specs.Fen.Text.{Spells, FenText};
ghost use Rattle.c960_board.specs.declared.fen.fault.FenFault.{FenFault};
ghost use Rattle.c960_board.specs.declared.parts.Parts.{Parts};

use crate::fen::counters::read_counters;
use crate::fen::fault::FenFault;
use crate::fen::fields::{Fields, six_fields};
use crate::fen::placement::read_placement;
use crate::fen::rights::read_rights;
use crate::fen::target::read_target;
use crate::fen::turn::read_turn;
use crate::parts::Parts;
use crate::position::Position;

/// The position that the fields spell, or the fault of the first bad field.
fn read_fields(fields: &Fields<'_>) -> Result<Position, FenFault>
    ensures { MatchResult result (λ p. Spells (six_of fields.now) p) (λ e. FaultIn e (six_of fields.now)) }
{
    let placement = read_placement(fields.placement).ok_or(FenFault::Placement)?;
    let turn = read_turn(fields.turn).ok_or(FenFault::Turn)?;
    let rights = read_rights(&placement, fields.rights).ok_or(FenFault::Castling)?;
    let target = read_target(&placement, turn, fields.target).ok_or(FenFault::EnPassant)?;
    let counters = read_counters(fields.half_moves, fields.number);
    let (half_moves, number) = counters.ok_or(FenFault::Counters)?;
    let parts = Parts {
        placement,
        turn,
        rights,
        target,
        half_moves,
        number,
    };
    Ok(Position::of_parts(parts))
}

/// The position whose text this is, in Shredder-FEN: six fields with single spaces between them, the castling rights by
/// the files of their rooks (`HAha`), in any order. Every text gets an answer, in time linear in its length and without
/// memory.
///
/// # Errors
///
/// The first fault of a text that is not a position's, in the order of `FenFault`.
pub fn read_fen(text: &[u8]) -> Result<Position, FenFault>
    ensures ok { IfOk result (λ p. FenText p text.now) }
    ensures fault { IfErr result (λ e. IsFault e text.now) }
    ensures only { (p : Parts) → FenText p text.now → result ≡ Ok p }
    ensures first { (e : FenFault) → IsFault e text.now → result ≡ Err e }
{
    let fields = six_fields(text).ok_or(FenFault::Fields)?;
    read_fields(&fields)
}
