//! The list of all legal moves.

ghost use Rattle.std.specs.Prelude.{◌≡◌, ◌<◌, ◌++◌, ◌&&◌, ℕ, [], false, IfOk, IsTrue, IsFalse};
ghost use Rattle.c960_board.specs.Moves.{is_promotion};
ghost use Rattle.c960_board.specs.Sets.{is_in};
ghost use Rattle.c960_rules.specs.Lines.{squares};
ghost use Rattle.c960_rules.specs.Tests.Legal.{legal_list};
ghost use Rattle.c960_rules.specs.Inner.Wheres.{where_set};
ghost use Rattle.c960_rules.specs.Reaches.{Reaches};
ghost use Rattle.c960_rules.specs.Inner.Listing.{triple, promotes, legal_one, legal_promotions, legal_between, legal_on, goes_to, one_plain, stretches_in, is_special, are_plain};
ghost use Rattle.c960_rules.specs.Inner.Pins.{AreEvasions, IsUnpinned};

use crate::bitset::{lowest, without_lowest};
use crate::goals::{goals, rooks_to_castle, target_set};
use crate::lawful::Lawful;
use crate::legal::is_legal_castling;
use crate::pins::{evasions, is_legal_unless_pinned, unpinned};
use crate::promotion::{end_ranks, promotes};
use crate::sides::{squares_of, stands};
use c960_board::{Kind, Move, Position, Sets, Square};
use std::alloc::{AllocError, Global};

/// Adds the move of a piece that goes there, if it does not expose its own king.
#[inline(always)]
fn push_safe(
    moves: &mut Vec<Move>,
    position: &Position,
    unpinned: u64,
    from: Square,
    to: Square,
    promotion: Option<Kind>,
) -> Result<(), AllocError>
    requires promotion { IsTrue (is_promotion promotion) }
    requires reaches { Reaches position.now (triple from to promotion) }
    requires unpinned { IsUnpinned position.now unpinned }
    ensures { IfOk result (λ _.
        moves.new.items ≡ moves.old.items ++ legal_one position.now (triple from to promotion)) }
{
    let m = Move {
        from,
        to,
        promotion,
    };
    // This gives the proof what is true of every move: `code` ensures it.
    prove!(m.code() < 20480);
    if is_legal_unless_pinned(position, &m, unpinned) {
        moves.push(m)?;
    }
    Ok(())
}

/// Adds the legal moves with a promotion, for a pawn that goes to its last rank.
fn push_promoted(
    moves: &mut Vec<Move>,
    position: &Position,
    unpinned: u64,
    from: Square,
    to: Square,
) -> Result<(), AllocError>
    requires goes { IsTrue (goes_to position.now from to) }
    requires promotes { IsTrue (promotes position.now from to) }
    requires unpinned { IsUnpinned position.now unpinned }
    ensures { IfOk result (λ _. moves.new.items ≡ moves.old.items ++ legal_promotions position.now from to) }
{
    push_safe(moves, position, unpinned, from, to, Some(Kind::Knight))?;
    push_safe(moves, position, unpinned, from, to, Some(Kind::Bishop))?;
    push_safe(moves, position, unpinned, from, to, Some(Kind::Rook))?;
    push_safe(moves, position, unpinned, from, to, Some(Kind::Queen))?;
    Ok(())
}

/// Adds the legal moves between two squares, for a piece that goes from one to the other.
#[inline(always)]
#[tactic(auto, using(crate::proofs::ListFacts::between_promoted, crate::proofs::ListFacts::between_plain))]
fn push_reached(
    moves: &mut Vec<Move>,
    position: &Position,
    unpinned: u64,
    from: Square,
    to: Square,
) -> Result<(), AllocError>
    requires goes { IsTrue (goes_to position.now from to) }
    requires unpinned { IsUnpinned position.now unpinned }
    ensures { IfOk result (λ _. moves.new.items ≡ moves.old.items ++ legal_between position.now from to) }
{
    if promotes(position, from, to) {
        push_promoted(moves, position, unpinned, from, to)
    } else {
        push_safe(moves, position, unpinned, from, to, None)
    }
}

/// Adds castling, if it is legal. Only castling goes between two squares if the piece does not go from one to the other.
fn push_castling(
    moves: &mut Vec<Move>,
    position: &Position,
    from: Square,
    to: Square,
) -> Result<(), AllocError>
    requires { IsFalse (goes_to position.now from to) }
    ensures { IfOk result (λ _. moves.new.items ≡ moves.old.items ++ legal_between position.now from to) }
{
    let m = Move {
        from,
        to,
        promotion: None,
    };
    // This gives the proof what is true of every move: `code` ensures it.
    prove!(m.code() < 20480);
    if is_legal_castling(position, &m) {
        moves.push(m)?;
    }
    Ok(())
}

/// Adds the legal moves between two squares, given the set of the squares to which the piece goes.
#[inline(always)]
fn push_at(
    moves: &mut Vec<Move>,
    position: &Position,
    unpinned: u64,
    goals: u64,
    from: Square,
    to: Square,
) -> Result<(), AllocError>
    requires goals { goals ≡ where_set (λ t. goes_to position.now from t) }
    requires unpinned { IsUnpinned position.now unpinned }
    ensures { IfOk result (λ _. moves.new.items ≡ moves.old.items ++ legal_between position.now from to) }
{
    if Sets::is_in(goals, to) {
        push_reached(moves, position, unpinned, from, to)
    } else {
        push_castling(moves, position, from, to)
    }
}

/// Adds a move without a promotion.
#[inline(always)]
fn push_plain(moves: &mut Vec<Move>, from: Square, to: Square) -> Result<(), AllocError>
    ensures { IfOk result (λ _. moves.new.items ≡ moves.old.items ++ one_plain from to) }
{
    let m = Move {
        from,
        to,
        promotion: None,
    };
    moves.push(m)?;
    Ok(())
}

/// Adds a move without a promotion for each of the goals.
#[inline(always)]
fn push_all(moves: &mut Vec<Move>, from: Square, goals: u64) -> Result<(), AllocError>
    ensures { IfOk result (λ _. moves.new.items ≡ moves.old.items ++ stretches_in (one_plain from) goals squares) }
{
    let mut left = goals;
    while left != 0 {
        let to = lowest(left);
        left = without_lowest(left);
        push_plain(moves, from, to)?;
    }
    Ok(())
}

/// The squares to which a move from a square may be legal: off these none is.
#[inline(always)]
fn candidates(position: &Position, evasions: u64, goals: u64, from: Square) -> u64
    requires goals { goals ≡ where_set (λ t. goes_to position.now from t) }
    requires evasions { AreEvasions position.now evasions }
    ensures { (t : ℕ) → t < 64 → is_in result t ≡ false → legal_between position.now from t ≡ [] }
{
    if stands(position, position.turn(), Kind::King, from) {
        return goals | rooks_to_castle(position, from);
    }
    goals & (evasions | target_set(position.target()))
}

/// Adds the legal moves from a square, each candidate tested.
fn push_tested(
    moves: &mut Vec<Move>,
    position: &Position,
    unpinned: u64,
    evasions: u64,
    goals: u64,
    from: Square,
) -> Result<(), AllocError>
    requires goals { goals ≡ where_set (λ t. goes_to position.now from t) }
    requires unpinned { IsUnpinned position.now unpinned }
    requires evasions { AreEvasions position.now evasions }
    ensures { IfOk result (λ _. moves.new.items ≡ moves.old.items ++ legal_on position.now from) }
{
    let mut left = candidates(position, evasions, goals, from);
    while left != 0 {
        let to = lowest(left);
        left = without_lowest(left);
        push_at(moves, position, unpinned, goals, from, to)?;
    }
    Ok(())
}

/// The squares to which a pawn's move may be a promotion or a capture en passant.
#[inline(always)]
fn special_goals(position: &Position) -> u64
    ensures { result ≡ where_set (is_special position.now) }
{
    end_ranks() | target_set(position.target())
}

/// Whether no move from the square to one of the goals is a promotion or a capture en passant: no pawn is there, or none of these goals is
/// on an end rank or the en passant target.
#[inline(always)]
fn are_plain(position: &Position, goals: u64, from: Square) -> bool
    ensures { result ≡ are_plain position.now from goals }
{
    !stands(position, position.turn(), Kind::Pawn, from) || goals & special_goals(position) == 0
}

/// Whether each of the goals is one legal move: the piece can leave the square, and none of these moves is a promotion, which is four
/// moves, or a capture en passant, which may expose the king all the same. So it is with most pieces, and none of their moves is tested.
#[inline(always)]
fn is_plain(position: &Position, unpinned: u64, goals: u64, from: Square) -> bool
    ensures { result ≡ (is_in unpinned from && are_plain position.now from goals) }
{
    Sets::is_in(unpinned, from) && are_plain(position, goals, from)
}

/// Adds the legal moves from a square.
fn push_from(
    moves: &mut Vec<Move>,
    position: &Position,
    unpinned: u64,
    evasions: u64,
    from: Square,
) -> Result<(), AllocError>
    requires unpinned { IsUnpinned position.now unpinned }
    requires evasions { AreEvasions position.now evasions }
    ensures { IfOk result (λ _. moves.new.items ≡ moves.old.items ++ legal_on position.now from) }
{
    let goals = goals(position, from);
    if is_plain(position, unpinned, goals, from) {
        return push_all(moves, from, goals);
    }
    push_tested(moves, position, unpinned, evasions, goals, from)
}

/// All legal moves, ascending by the square that is left, then by the goal, then by the promotion: none, knight,
/// bishop, rook, queen.
///
/// # Errors
///
/// There was no memory.
pub fn legal_moves(alloc: Global, lawful: &Lawful) -> Result<Vec<Move>, AllocError>
    ensures { IfOk result (λ moves. moves.items ≡ legal_list lawful.now) }
{
    let position = lawful.position();
    let turn = position.turn();
    // Room for 64, since few positions have more legal moves: so the list seldom grows while it is being filled.
    let mut moves = Vec::with_capacity(alloc, 64)?;
    let unpinned = unpinned(&position);
    let evasions = evasions(&position, unpinned);
    let mut left = squares_of(&position, turn);
    while left != 0 {
        let from = lowest(left);
        left = without_lowest(left);
        push_from(&mut moves, &position, unpinned, evasions, from)?;
    }
    Ok(moves)
}
