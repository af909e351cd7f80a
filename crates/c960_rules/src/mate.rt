//! Checkmate and stalemate (FIDE Laws, Articles 5.1.1 and 5.2.1).

ghost use Rattle.std.specs.Prelude.{◌≡◌, ◌↔◌};
ghost use Rattle.c960_board.specs.Moves.{Triple};
ghost use Rattle.c960_rules.specs.Legal.{Legal, Mate, Stale};

use crate::any::any_legal;
use crate::check::in_check;
use crate::lawful::Lawful;
use crate::side_to_move::State;

/// The state of the side to move.
pub fn state(lawful: &Lawful) -> State
    ensures going { (result ≡ State.Going) ↔ ((m : Triple) × Legal lawful.now m) }
    ensures checkmate { (result ≡ State.Checkmate) ↔ Mate lawful.now }
    ensures stalemate { (result ≡ State.Stalemate) ↔ Stale lawful.now }
{
    if any_legal(lawful) {
        return State::Going;
    }
    let position = lawful.position();
    if in_check(&position, position.turn()) {
        State::Checkmate
    } else {
        State::Stalemate
    }
}
