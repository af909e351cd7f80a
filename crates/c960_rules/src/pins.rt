//! Pins and evasions: the squares that a piece can leave without exposing its own king, and those where it can help the king out of
//! check, found once a position.

ghost use Rattle.std.specs.Prelude.{◌≡◌, ◌↔◌, ◌<◌, ℕ, true, IsTrue, IfSome};
ghost use Rattle.c960_board.specs.Sets.{is_in};
ghost use Rattle.c960_rules.specs.Legal.{Legal};
ghost use Rattle.c960_rules.specs.Reaches.{Reaches};
ghost use Rattle.c960_rules.specs.Inner.Pins.{AreEvasions, HasOthers, IsUnpinned, blockers};

use crate::attack_sets::{attackers_over, leapers, sliders};
use crate::bitset::{lowest, only, without_lowest};
use crate::legal::is_legal_ordinary;
use crate::placement::is_en_passant;
use crate::safety::king_of;
use crate::sides::squares_of;
use crate::tables::between::squares_between;
use c960_board::{Move, Position, Sets, Square};

/// The set if it has just one square, and the empty set if it has more.
#[inline(always)]
fn sole(set: u64) -> u64
    requires { 0 < set }
    ensures { HasOthers set result }
{
    let rest = without_lowest(set);
    if rest == 0 { set } else { 0 }
}

/// The squares that stand alone between the king and one of the sliders, or None if a slider's way to the king is free.
fn pinned(sliders: u64, king: Square, occupied: u64) -> Option<u64>
    ensures { IfSome result (λ pinned. (s : ℕ) → s < 64 → is_in sliders s ≡ true → HasOthers (blockers king occupied s) pinned) }
{
    let mut left = sliders;
    let mut pinned: u64 = 0;
    while left != 0 {
        let slider = lowest(left);
        left = without_lowest(left);
        let blockers = squares_between(king, slider) & occupied;
        if blockers == 0 {
            return None;
        }
        pinned |= sole(blockers);
    }
    Some(pinned)
}

/// The squares that a piece can leave without exposing its own king: all but the king's and those of pinned pieces, and none
/// if the king is in check. Captures en passant are left out, since they empty a second square.
///
/// A piece that did not attack the king before the move attacks it after the move only along a line on which nothing stood but
/// the mover. So one look at the sliders on the king's lines saves a look at all attackers for each move.
pub(crate) fn unpinned(position: &Position) -> u64
    ensures { IsUnpinned position.now result }
{
    let _sets = position.sets();
    let turn = position.turn();
    let king = king_of(position, turn);
    let theirs = turn.other();
    if leapers(position, theirs, king) != 0 {
        return 0;
    }
    match pinned(sliders(position, theirs, king), king, position.occupied()) {
        Some(pinned) => !(pinned | only(king)),
        None => 0,
    }
}

/// The squares to which a move can go without leaving the king in check: all, but in check only the square of one attacker and those
/// between it and the king. The king's own moves and captures en passant are left out.
///
/// An attacker that is not taken, and whose way stays free, still attacks the king after the move. So in check few moves are tested.
/// `unpinned` is empty only in check, and so saves a second look at the attackers elsewhere. A king that is alone has no use for the set.
pub(crate) fn evasions(position: &Position, unpinned: u64) -> u64
    ensures { AreEvasions position.now result }
{
    if unpinned != 0 {
        return u64::MAX;
    }
    let _sets = position.sets();
    let turn = position.turn();
    let king = king_of(position, turn);
    let alone = only(king);
    if squares_of(position, turn) == alone {
        return u64::MAX;
    }
    let checkers = attackers_over(position, turn.other(), king, position.occupied());
    if checkers == 0 {
        return u64::MAX;
    }
    let checker = lowest(checkers);
    only(checker) | squares_between(king, checker)
}

/// Whether a move that goes by its piece's rules is legal, given the squares that a piece can leave.
#[inline(always)]
pub(crate) fn is_legal_unless_pinned(position: &Position, m: &Move, unpinned: u64) -> bool
    requires reaches { Reaches position.now m.now }
    requires unpinned { IsUnpinned position.now unpinned }
    ensures { IsTrue result ↔ Legal position.now m.now }
{
    // This gives the proof what is true of every move: `code` ensures it.
    prove!(m.code() < 20480);
    if Sets::is_in(unpinned, m.from) && !is_en_passant(position, m) {
        return true;
    }
    is_legal_ordinary(position, m)
}
