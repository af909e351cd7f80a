//! The position after a move (FIDE Laws, Articles 3.1, 3.7 and 3.8.2; Guidelines II.3).

ghost use Rattle.std.specs.Prelude.{ℕ, false, ◌≡◌, ◌<◌, ◌*◌, ◌^◌, ◌%◌, ◌&&◌, ◌==◌, not, length, get_or, IsFalse, bit_or};
ghost use mir.Val.{bool_byte};
ghost use Rattle.c960_board.specs.Pieces.{is_of};
ghost use Rattle.c960_board.specs.Cells.{cell_at};
ghost use Rattle.c960_board.specs.Squares.{home_square};
ghost use Rattle.c960_board.specs.Sets.{sets_of};
ghost use Rattle.c960_rules.specs.After.{placement_after, rights_after, target_after, half_moves_after, number_after, after};
ghost use Rattle.c960_rules.specs.Inner.Carried.{carried, all_carried, taken_off, put_on};
ghost use Rattle.c960_rules.specs.Inner.Safety.{is_changed};
ghost use Rattle.c960_rules.specs.Inner.Wheres.{where_set};
ghost use Rattle.c960_rules.specs.Castles.{Castles};
ghost use Rattle.c960_rules.specs.Check.{IsLawful};
ghost use Rattle.c960_rules.specs.Legal.{Legal};

use crate::bitset::only;
use crate::castling::{king_goal, rook_goal};
use crate::placement::landed;
use crate::safety::captured_pawn;
use crate::sides::{ahead, has_none, home_rank, is_occupied_by, rights_of, stands};
use c960_board::{CastlingRights, Colour, Kind, Move, Piece, Position, Sets, Square};

/// A side's rights but that of the rook on a square: a square off the home rank has none, one on it that of its file.
#[inline(always)]
fn without(rights: [bool; 8], colour: Colour, square: Square) -> [bool; 8]
    requires { length rights ≡ 8 }
    ensures full { length result ≡ 8 }
    ensures files { (f : ℕ) → f < 8 → get_or result f false ≡ get_or rights f false && not (square == home_square colour f) }
{
    let mut left = rights;
    if square.number() / 8 == home_rank(colour) {
        left[(square.number() % 8) as usize] = false;
    }
    left
}

/// The rights of a side after a move. Its king's move ends all of them, another move at most those of the rooks on its two squares. Of a
/// side that has none left, as after most openings, nothing is looked up.
#[tactic(auto, using(crate::proofs::TableFacts::none_before, crate::proofs::TableFacts::none_of_king))]
fn rights_after(position: &Position, m: &Move, colour: Colour) -> [bool; 8]
    ensures { result ≡ rights_after position.now m.now colour }
{
    if has_none(position, colour) {
        return [false; 8];
    }
    if stands(position, colour, Kind::King, m.from) {
        return [false; 8];
    }
    let rights = rights_of(position, colour);
    without(without(rights, colour, m.from), colour, m.to)
}

/// The square passed over by a double step.
#[tactic(auto, using(crate::proofs::InnerRanks::pawn_inner), unfolding(crate::specs::After::target_after))]
fn target_after(position: &Position, m: &Move) -> Option<Square>
    ensures { result ≡ target_after position.now m.now }
{
    let ranks = (m.from.number() / 8).abs_diff(m.to.number() / 8);
    let _sets = position.sets();
    let turn = position.turn();
    if stands(position, turn, Kind::Pawn, m.from) && ranks == 2 {
        Some(ahead(turn, m.from))
    } else {
        None
    }
}

/// The half-move counter after a move: a pawn's move and a capture set it to 0. Both tests are made at once, in two steps
/// each: a branch misprediction would cost more.
#[tactic(auto, unfolding(crate::specs::After::half_moves_after))]
fn half_moves_after(position: &Position, m: &Move) -> u16
    requires { position.now.half_moves < 65535 }
    ensures { result ≡ half_moves_after position.now m.now }
{
    let turn = position.turn();
    let is_pawn = stands(position, turn, Kind::Pawn, m.from);
    let captures = is_occupied_by(position, turn.other(), m.to);
    if is_pawn | captures {
        0
    } else {
        position.half_moves() + 1
    }
}

/// The move number after a side's move: it rises after Black's.
fn number_after(colour: Colour, number: u16) -> u16
    requires { number < 65535 }
    ensures { result ≡ number_after colour number }
{
    match colour {
        Colour::White => number,
        Colour::Black => number + 1,
    }
}

/// A set of squares with one more, if it belongs there: a choice between that square and none, which needs no branch.
#[inline(always)]
fn with(set: u64, belongs: bool, square: Square) -> u64
    ensures { result ≡ bit_or set (bool_byte belongs * 2 ^ square % 2 ^ 64) }
{
    let added = if belongs { 1u64 << square.number() } else { 0 };
    set | added
}

/// The sets without the pieces on these squares.
#[inline(always)]
fn taken_off(sets: &Sets, gone: u64) -> Sets
    ensures { result ≡ taken_off gone sets.now }
{
    Sets {
        white: sets.white & !gone,
        black: sets.black & !gone,
        pawns: sets.pawns & !gone,
        knights: sets.knights & !gone,
        bishops: sets.bishops & !gone,
        rooks: sets.rooks & !gone,
        queens: sets.queens & !gone,
        kings: sets.kings & !gone,
    }
}

/// A set after an ordinary move that is no promotion: without the squares that change, and with the goal exactly if it had the square that
/// is left. What moves keeps its colour and its kind, so nobody has to find out which they are: five plain steps and no branch, for two
/// sets at once.
#[inline(always)]
fn carried(set: u64, changed: u64, m: &Move) -> u64
    ensures { result ≡ carried changed m.now.from m.now.to set }
{
    with(set & !changed, Sets::is_in(set, m.from), m.to)
}

/// The sets after a move whose piece stays of its kind.
#[inline(always)]
fn all_carried(sets: &Sets, changed: u64, m: &Move) -> Sets
    ensures { result ≡ all_carried changed m.now.from m.now.to sets.now }
{
    Sets {
        white: carried(sets.white, changed, m),
        black: carried(sets.black, changed, m),
        pawns: carried(sets.pawns, changed, m),
        knights: carried(sets.knights, changed, m),
        bishops: carried(sets.bishops, changed, m),
        rooks: carried(sets.rooks, changed, m),
        queens: carried(sets.queens, changed, m),
        kings: carried(sets.kings, changed, m),
    }
}

/// The sets with the contents of the cell on a square.
#[inline(always)]
fn put_on(sets: &Sets, cell: Option<Piece>, square: Square) -> Sets
    ensures { result ≡ put_on cell square sets.now }
{
    Sets {
        white: with(sets.white, Sets::is_of(cell, Colour::White), square),
        black: with(sets.black, Sets::is_of(cell, Colour::Black), square),
        pawns: with(sets.pawns, Sets::is_kind(cell, Kind::Pawn), square),
        knights: with(sets.knights, Sets::is_kind(cell, Kind::Knight), square),
        bishops: with(sets.bishops, Sets::is_kind(cell, Kind::Bishop), square),
        rooks: with(sets.rooks, Sets::is_kind(cell, Kind::Rook), square),
        queens: with(sets.queens, Sets::is_kind(cell, Kind::Queen), square),
        kings: with(sets.kings, Sets::is_kind(cell, Kind::King), square),
    }
}

/// The sets of the placement after castling. It is rare, and a function apart as `sets_promoted` is.
#[inline(never)]
fn sets_castled(position: &Position, m: &Move) -> Sets
    requires { Castles position.now m.now }
    ensures { result ≡ sets_of (placement_after position.now m.now) }
{
    let sets = position.sets();
    let turn = position.turn();
    let goal = king_goal(turn, m);
    let place = rook_goal(turn, m);
    let king = position.piece_at(m.from);
    let rook = position.piece_at(m.to);
    let gone = only(m.from) | only(m.to);
    let left = taken_off(&sets, gone);
    let with_king = put_on(&left, king, goal);
    put_on(&with_king, rook, place)
}

/// The sets of the placement after a promotion. It is rare, and a function apart: so its result and that of the other moves meet in memory,
/// where the others' sets are made two at a time, and not in eight registers.
#[inline(never)]
fn sets_promoted(position: &Position, m: &Move, changed: u64) -> Sets
    requires legal { Legal position.now m.now }
    requires ordinary { IsFalse (is_of position.now.turn (cell_at position.now.placement m.now.to)) }
    requires changed { changed ≡ where_set (λ s. is_changed position.now m.now s) }
    ensures { result ≡ sets_of (placement_after position.now m.now) }
{
    let piece = landed(position.piece_at(m.from), m.promotion);
    let left = taken_off(&position.sets(), changed);
    put_on(&left, piece, m.to)
}

/// The squares that an ordinary move changes.
#[inline(always)]
fn changed_by(position: &Position, m: &Move) -> u64
    ensures { result ≡ where_set (λ s. is_changed position.now m.now s) }
{
    only(m.from) | (only(m.to) | captured_pawn(position, m))
}

/// The sets of the placement after an ordinary move. Only a promotion, which is rare, has to find out what arrives.
#[inline(always)]
fn sets_moved(position: &Position, m: &Move) -> Sets
    requires legal { Legal position.now m.now }
    requires ordinary { IsFalse (is_of position.now.turn (cell_at position.now.placement m.now.to)) }
    ensures { result ≡ sets_of (placement_after position.now m.now) }
{
    let changed = changed_by(position, m);
    if m.promotion.is_some() {
        return sets_promoted(position, m, changed);
    }
    all_carried(&position.sets(), changed, m)
}

/// The sets of the placement after a legal move: a move onto a piece of the mover's own side is castling.
#[inline(always)]
fn sets_after(position: &Position, m: &Move) -> Sets
    requires { Legal position.now m.now }
    ensures { result ≡ sets_of (placement_after position.now m.now) }
{
    if is_occupied_by(position, position.turn(), m.to) {
        sets_castled(position, m)
    } else {
        sets_moved(position, m)
    }
}

/// The position after a legal move of a lawful position.
pub(crate) fn after(position: &Position, m: &Move) -> Position
    requires lawful { IsLawful position.now }
    requires legal { Legal position.now m.now }
    requires half_moves { position.now.half_moves < 65535 }
    requires number { position.now.number < 65535 }
    ensures { result ≡ after position.now m.now }
{
    let _sets = position.sets();
    let turn = position.turn();
    let sets = sets_after(position, m);
    let rights = CastlingRights {
        white: rights_after(position, m, Colour::White),
        black: rights_after(position, m, Colour::Black),
    };
    Position::of_sets(
        sets,
        turn.other(),
        rights,
        target_after(position, m),
        half_moves_after(position, m),
        number_after(turn, position.number()),
    )
}
