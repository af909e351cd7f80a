//! The conditions on the parts of a position, each as a test.

ghost use Rattle.std.specs.Prelude.{◌≡◌, ◌↔◌, ◌≤◌, ℕ, IsTrue, Some};
ghost use Rattle.c960_board.specs.declared.piece.Colour.{Colour};
ghost use Rattle.c960_board.specs.Position.{IsPosition, AreRights, IsTarget};

use crate::parts::Parts;
use crate::piece::Colour;

mod placement;
mod rights;
mod target;

pub use placement::is_placement;
pub use rights::are_rights;
pub use target::is_target;

/// Whether there is no target, or one that fits.
fn target_fits(parts: &Parts) -> bool
    ensures { IsTrue result ↔ ((t : ℕ) → parts.now.target ≡ Some t → IsTarget parts.now.placement parts.now.turn t) }
{
    match parts.target {
        None => true,
        Some(target) => is_target(&parts.placement, parts.turn, target),
    }
}

/// Whether the rights of both sides fit.
fn rights_fit(parts: &Parts) -> bool
    ensures { IsTrue result ↔ ((c : Colour) → AreRights parts.now.placement parts.now.rights c) }
{
    are_rights(&parts.placement, &parts.rights, Colour::White)
        && are_rights(&parts.placement, &parts.rights, Colour::Black)
}

/// Whether it can be a move number: at least 1; its type bounds it from above.
fn is_move_number(number: u16) -> bool
    ensures { IsTrue result ↔ (1 ≤ number) }
{
    number > 0
}

/// Whether the parts make up a position.
pub fn are_parts(parts: &Parts) -> bool
    ensures { IsTrue result ↔ IsPosition parts.now }
{
    // This gives the proof the bound of the half-move counter, which is its type's.
    let _bound = parts.half_moves;
    is_placement(&parts.placement)
        && rights_fit(parts)
        && target_fits(parts)
        && is_move_number(parts.number)
}
