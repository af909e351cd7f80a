//! The positions in which the side not to move is not in check: a legal move leads only to these.

ghost use Rattle.std.specs.Prelude.{◌≡◌, ◌↔◌, IsOk, MatchResult};

use crate::check::in_check;
use c960_board::Position;
use std::marker::Model;

/// A position in which the side not to move is not in check, as after every legal move (FIDE Laws, Article 3.9.2). Contracts see
/// the position's `Parts`.
#[derive(Clone, Copy, PartialEq, Eq, Debug)]
pub struct Lawful {
    position: Position,
}

impl Model for Lawful {
    ghost use Rattle.c960_board.specs.declared.parts.Parts.{Parts};
    ghost use Rattle.c960_rules.specs.Check.{IsLawful};

    ghost Value = { Parts };

    ghost view = { λ l. l.position };

    ghost invariant = { λ l. IsLawful l.position };

    ghost inverse = { λ parts. record { position = parts } };
}

impl Lawful {
    ghost use Rattle.c960_board.specs.Position.{IsPosition};
    ghost use Rattle.c960_rules.specs.Check.{IsLawful};

    /// The lawful position. Refuses exactly a position in which the side not to move is in check, and returns it.
    pub fn of(position: Position) -> Result<Lawful, Position>
        ensures ok { IsOk result ↔ IsLawful position }
        ensures value { MatchResult result (λ l. l ≡ position) (λ p. p ≡ position) }
    {
        if in_check(&position, position.turn().other()) {
            Err(position)
        } else {
            Ok(Lawful::of_position(position))
        }
    }

    /// The lawful position made of one that is known to be lawful.
    pub(crate) fn of_position(position: Position) -> Lawful
        requires { IsLawful position }
        ensures { result ≡ position }
    {
        Lawful { position }
    }

    /// The position, to be looked at where it stands: a copy takes about a hundred bytes.
    #[inline(always)]
    pub fn as_position(&self) -> &Position
        ensures value { result.now ≡ self.now }
        ensures lawful { IsLawful result.now }
        ensures valid { IsPosition result.now }
    {
        let _sets = self.position.sets();
        &self.position
    }

    /// The position.
    pub fn position(&self) -> Position
        ensures value { result ≡ self.now }
        ensures lawful { IsLawful self.now }
        ensures valid { IsPosition self.now }
    {
        let _sets = self.position.sets();
        self.position
    }
}
