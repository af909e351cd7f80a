//! What arrives on the goal of a move, and captures en passant.

ghost use Rattle.std.specs.Prelude.{◌≡◌};
ghost use Rattle.c960_rules.specs.After.{landed, is_en_passant};
ghost use Rattle.c960_rules.specs.Lines.{same_file};
ghost use Rattle.c960_rules.specs.Reaches.{is_target};

use crate::sides::stands;
use c960_board::{Kind, Move, Piece, Position, Square};

/// The piece that arrives on the goal: the mover, or what a pawn is promoted to.
pub(crate) fn landed(cell: Option<Piece>, promotion: Option<Kind>) -> Option<Piece>
    ensures { result ≡ landed cell promotion }
{
    let Some(kind) = promotion else {
        return cell;
    };
    let Piece { colour, kind: _ } = cell?;
    Some(Piece { colour, kind })
}

/// Whether both squares are on one file.
fn is_same_file(from: Square, to: Square) -> bool
    ensures { result ≡ same_file from to }
{
    from.number() % 8 == to.number() % 8
}

/// Whether the square is the en passant target.
fn is_target(target: Option<Square>, square: Square) -> bool
    ensures { result ≡ is_target target square }
{
    match target {
        Some(passed) => passed.number() == square.number(),
        None => false,
    }
}

/// Whether a pawn goes diagonally to the en passant target.
#[tactic(auto, unfolding(crate::specs::After::is_en_passant))]
pub(crate) fn is_en_passant(position: &Position, m: &Move) -> bool
    ensures { result ≡ is_en_passant position.now m.now }
{
    let is_on_target = is_target(position.target(), m.to);
    if !is_on_target {
        return false;
    }
    stands(position, position.turn(), Kind::Pawn, m.from) && !is_same_file(m.from, m.to)
}
