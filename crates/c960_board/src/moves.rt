//! The moves, their codes and their texts.

use crate::piece::Kind;
use crate::square::Square;
use std::marker::Model;

mod bytes;
mod code;
mod fault;
mod promotion;
mod reader;
mod writer;

pub use bytes::MoveBytes;
pub use fault::MoveFault;
pub use reader::read_move;
pub use writer::move_bytes;

/// A move as it is written; whether it is legal is a matter of the rules. Castling goes from the king's square to its
/// own rook's square. Contracts see a `Triple`, whose promotion is none, knight, bishop, rook or queen.
#[derive(Clone, Copy, PartialEq, Eq, Debug)]
pub struct Move {
    /// The square that the piece leaves.
    pub from: Square,
    /// The square that the piece goes to.
    pub to: Square,
    /// What a pawn is promoted to.
    pub promotion: Option<Kind>,
}

impl Model for Move {
    ghost use Rattle.std.specs.Prelude.{IsTrue};
    ghost use Rattle.c960_board.specs.Moves.{Triple, is_promotion};

    ghost Value = { Triple };

    ghost view = { λ m. record {
      from = m.from;
      to = m.to;
      promotion = m.promotion;
    } };

    ghost invariant = { λ m. IsTrue (is_promotion m.promotion) };

    ghost inverse = { λ m. record {
      from = m.from;
      to = m.to;
      promotion = m.promotion;
    } };
}
