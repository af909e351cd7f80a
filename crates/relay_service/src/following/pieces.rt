//! All that a connection is sent, as clauses see it.

ghost use Rattle.std.specs.Prelude.{◌≡◌, List, [], ◌∷◌, ◌++◌};
ghost use Rattle.std.specs.Borrow.{ftrue};
ghost use Rattle.relay_service.specs.Following.Noting.{piece_of};
ghost use Rattle.relay_service.specs.Following.Pieces.{Piece};

use crate::following::new_piece::NewPiece;
use std::marker::Model;

/// Pieces, one after another. Only clauses read them: they take no memory, and nothing is done with them at run time.
#[derive(Drop)]
pub(crate) struct Pieces {
    /// The pieces, the first one first.
    pub ghost items: { List Piece },
}

impl Model for Pieces {
    // There is no memory that it could own.
    ghost also_owns = { λ _. ftrue };
}

impl Pieces {
    /// No pieces.
    pub(crate) fn new() -> Pieces
        ensures { result.items ≡ [] }
    {
        Pieces {}
    }

    /// These pieces, and then this one.
    pub(crate) fn and(&self, _piece: &NewPiece) -> Pieces
        ensures { result.items ≡ self.now.items ++ piece_of _piece.now ∷ [] }
    {
        Pieces {}
    }
}
