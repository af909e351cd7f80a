//! The text of a rank.

ghost use Rattle.std.specs.Prelude.{◌≡◌, MatchOption, List};
ghost use Rattle.c960_board.specs.Fen.Placement.{SpellsRank};
ghost use Rattle.c960_board.specs.Pieces.{Cell};

use crate::fen::symbol::{Symbol, symbol_of};
use crate::piece::Piece;

/// The squares that a rank's text spells.
pub(crate) fn read_rank(text: &[u8]) -> Option<[Option<Piece>; 8]>
    ensures { MatchOption result
        ((cells : List Cell) → SpellsRank text.now cells → ⊥)
        (λ cells. SpellsRank text.now cells) }
{
    let mut cells = [None; 8];
    let mut file: u8 = 0;
    let mut after_digit = false;
    for byte in text {
        match symbol_of(*byte) {
            Symbol::Man(piece) => {
                if file == 8 {
                    return None;
                }
                cells[file as usize] = Some(piece);
                file += 1;
                after_digit = false;
            }
            Symbol::Run(run) => {
                if after_digit || run > 8 - file {
                    return None;
                }
                file += run;
                after_digit = true;
            }
            Symbol::Other => return None,
        }
    }
    if file < 8 {
        return None;
    }
    Some(cells)
}
