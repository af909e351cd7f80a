//! When two positions are the same, for claims and for fivefold repetition (FIDE Laws, Articles 9.2, 9.6.1).

ghost use Rattle.std.specs.Prelude.{◌≡◌, ◌↔◌, IsTrue, nat_eq};
ghost use Rattle.std.specs.Cmp.Lexicographic.{pointwise};
ghost use Rattle.std.specs.Option.{option_eq};
ghost use Rattle.c960_board.specs.Pieces.{same_colour};
ghost use Rattle.c960_game.specs.Same.{Same};
ghost use Rattle.c960_game.specs.Tests.Same.{legal_target, same, same_piece, same_rights};

use c960_board::{CastlingRights, Colour, Position, Square};
use c960_rules::{Lawful, ep_legal};

/// Whether two sides are the same.
pub(crate) fn same_colour(one: Colour, two: Colour) -> bool
    ensures { result ≡ same_colour one two }
{
    one == two
}

/// Whether two placements are the same. The occupied squares are compared first: they are one word, and differ in most different
/// placements.
fn same_placement(one: &Position, two: &Position) -> bool
    ensures { result ≡ pointwise (option_eq same_piece) one.now.placement two.now.placement }
{
    one.occupied() == two.occupied() && one.same_placement(two)
}

fn same_rights(one: &CastlingRights, two: &CastlingRights) -> bool
    ensures { result ≡ same_rights one.now two.now }
{
    one.white == two.white && one.black == two.black
}

fn legal_target(lawful: &Lawful) -> Option<Square>
    ensures { result ≡ legal_target lawful.now }
{
    ep_legal(lawful)
}

fn same_captures(one: &Lawful, two: &Lawful) -> bool
    ensures { result ≡ option_eq nat_eq (legal_target one.now) (legal_target two.now) }
{
    legal_target(one) == legal_target(two)
}

/// Whether two positions are the same, by a test that goes from what is cheap and differs most to what is expensive. Every other position
/// of a game has the other side to move, and captures en passant are looked for only if all else is equal.
#[tactic(auto, unfolding(crate::specs::Tests::Same::same))]
fn test_same(one: &Lawful, two: &Lawful) -> bool
    ensures { result ≡ same one.now two.now }
{
    let (first, second) = (one.position(), two.position());
    same_colour(first.turn(), second.turn())
        && same_placement(&first, &second)
        && same_rights(&first.rights(), &second.rights())
        && same_captures(one, two)
}

/// Whether two positions are the same, for a claim and for fivefold repetition.
#[tactic(auto, using(crate::proofs::SameFacts::same_decides))]
pub fn same(one: &Lawful, two: &Lawful) -> bool
    ensures value { result ≡ same one.now two.now }
    ensures same { IsTrue result ↔ Same one.now two.now }
{
    test_same(one, two)
}
