//! The field of the placement.

ghost use Rattle.std.specs.Prelude.{◌≡◌, ◌+◌, ◌*◌, MatchOption, MatchBool, List, length};
ghost use Rattle.c960_board.specs.Fen.Placement.{SpellsRanks, IsPlacementField};
ghost use Rattle.c960_board.specs.Pieces.{Cell};

use crate::conditions::is_placement;
use crate::fen::fields::cut;
use crate::fen::rank::read_rank;
use crate::piece::Piece;

/// Reads the ranks from the highest one down to rank 1, which is 0, into the squares up to those of the highest.
fn read_ranks(text: &[u8], highest: usize, cells: &mut [Option<Piece>]) -> bool
    requires { length cells.old ≡ 8 * highest + 8 }
    ensures { MatchBool result
        (SpellsRanks highest text.now cells.new)
        ((all : List Cell) → SpellsRanks highest text.now all → ⊥) }
{
    if highest == 0 {
        let Some(rank) = read_rank(text) else {
            return false;
        };
        cells.copy_from_slice(&rank);
        return true;
    }
    let Some((first, rest)) = cut(text, b'/') else {
        return false;
    };
    let Some(rank) = read_rank(first) else {
        return false;
    };
    let (low, high) = cells.split_at_mut(8 * highest);
    high.copy_from_slice(&rank);
    read_ranks(rest, highest - 1, low)
}

/// The squares that the field spells, if they are a placement.
pub(crate) fn read_placement(text: &[u8]) -> Option<[Option<Piece>; 64]>
    ensures { MatchOption result
        ((cells : List Cell) → IsPlacementField text.now cells → ⊥)
        (λ cells. IsPlacementField text.now cells) }
{
    let mut cells = [None; 64];
    if read_ranks(text, 7, &mut cells) && is_placement(&cells) {
        Some(cells)
    } else {
        None
    }
}
