//! What a game keeps besides its log, in memory that was reserved when it was opened: the positions since the last capture or
//! pawn move, including the present one, and every thirty-second position, from which an earlier one is replayed.

ghost use Rattle.std.specs.Prelude.{◌≡◌, ◌+◌, ◌%◌, ◌==◌, ◌<◌, ◌++◌, ◌∷◌, [], count_by, IfOk, if◌then◌else◌};
ghost use Rattle.std.specs.Vec.{vec_len, vec_capacity};
ghost use Rattle.c960_game.specs.Tests.Same.{same};

use crate::same::same;
use c960_rules::Lawful;
use std::alloc::{AllocError, Global};

/// The most positions since the last capture or pawn move, both ends included: a game whose half-move counter is 150 is over.
pub const RECENT: usize = 151;

/// This many moves lie between two positions that are kept permanently.
pub const MILE: usize = 32;

/// A vector with a first position, with room for `capacity` positions.
pub fn row_of(alloc: Global, capacity: usize, first: Lawful) -> Result<Vec<Lawful>, AllocError>
    requires { 0 < capacity }
    ensures items { IfOk result (λ row. row.items ≡ first ∷ []) }
    ensures capacity { IfOk result (λ row. vec_capacity row ≡ capacity) }
{
    let mut row = Vec::with_capacity(alloc, capacity)?;
    row.push_reserved(first);
    Ok(row)
}

/// Adds a position to the recent ones, which start afresh after a capture or a pawn move.
pub fn add_recent(recent: &mut Vec<Lawful>, next: Lawful)
    requires { vec_len recent.old < vec_capacity recent.old }
    ensures items { recent.new.items ≡ (if next.half_moves == 0 then next ∷ [] else recent.old.items ++ next ∷ []) }
    ensures capacity { vec_capacity recent.new ≡ vec_capacity recent.old }
{
    if next.position().half_moves() == 0 {
        recent.clear();
    }
    recent.push_reserved(next);
}

/// Adds the position after this many moves, if it is one that is kept permanently.
pub fn add_milestone(milestones: &mut Vec<Lawful>, moves: usize, next: Lawful)
    requires { moves % MILE ≡ 0 → vec_len milestones.old < vec_capacity milestones.old }
    ensures items { milestones.new.items ≡ (if moves % MILE == 0 then milestones.old.items ++ next ∷ [] else milestones.old.items) }
    ensures capacity { vec_capacity milestones.new ≡ vec_capacity milestones.old }
{
    if moves % MILE == 0 {
        milestones.push_reserved(next);
    }
}

/// How many of the positions are the same as one.
pub fn count_same(positions: &[Lawful], last: &Lawful) -> usize
    ensures { result ≡ count_by (λ p. same p last.now) positions.now }
{
    positions.iter().filter(|p| same(p, last)).count()
}
