//! The rules by plain scans of the 64 squares of a board, with which the bodies that work on sets of squares are compared.

ghost use Rattle.std.specs.Prelude.{◌≤◌};

use c960_board::{Colour, Kind, Move, Parts, Piece};

/// The contents of the square with a number; nothing beyond the last.
fn cell(cells: &[Option<Piece>; 64], square: u8) -> Option<Piece> {
    match cells.get(square as usize) {
        Some(cell) => *cell,
        None => None,
    }
}

fn is_of(cell: Option<Piece>, colour: Colour) -> bool {
    match cell {
        Some(piece) => piece.colour == colour,
        None => false,
    }
}

fn holds(cell: Option<Piece>, colour: Colour, kind: Kind) -> bool {
    match cell {
        Some(piece) => piece.colour == colour && piece.kind == kind,
        None => false,
    }
}

fn is_within(one: u8, middle: u8, two: u8) -> bool {
    (one < middle && middle < two) || (two < middle && middle < one)
}

fn is_diagonal(one: u8, two: u8) -> bool {
    (one % 8).abs_diff(two % 8) == (one / 8).abs_diff(two / 8)
}

/// Whether a square is strictly between two squares of a rank, a file or a diagonal.
fn is_between(from: u8, square: u8, to: u8) -> bool {
    let files = is_within(from % 8, square % 8, to % 8);
    let ranks = is_within(from / 8, square / 8, to / 8);
    let rank = from / 8 == square / 8 && square / 8 == to / 8;
    let file = from % 8 == square % 8 && square % 8 == to % 8;
    let diagonal = is_diagonal(from, square) && is_diagonal(square, to);
    (rank && files) || (file && ranks) || (diagonal && files && ranks)
}

/// Whether the squares differ and no square between them holds a piece.
fn is_clear(cells: &[Option<Piece>; 64], from: u8, to: u8) -> bool {
    for square in 0..64 {
        if is_between(from, square, to) && cell(cells, square).is_some() {
            return false;
        }
    }
    from != to
}

fn is_forward(colour: Colour, from: u8, to: u8) -> bool {
    match colour {
        Colour::White => to / 8 == from / 8 + 1,
        Colour::Black => from / 8 == to / 8 + 1,
    }
}

/// Whether the piece, which is on `from`, attacks `to`.
fn attacks_as(cells: &[Option<Piece>; 64], piece: Piece, from: u8, to: u8) -> bool {
    let files = (from % 8).abs_diff(to % 8);
    let ranks = (from / 8).abs_diff(to / 8);
    let is_straight = files == 0 || ranks == 0;
    match piece.kind {
        Kind::Pawn => files == 1 && is_forward(piece.colour, from, to),
        Kind::Knight => (files == 1 && ranks == 2) || (files == 2 && ranks == 1),
        Kind::Bishop => files == ranks && is_clear(cells, from, to),
        Kind::Rook => is_straight && is_clear(cells, from, to),
        Kind::Queen => (is_straight || files == ranks) && is_clear(cells, from, to),
        Kind::King => files.max(ranks) == 1,
    }
}

fn attacks(cells: &[Option<Piece>; 64], from: u8, to: u8) -> bool {
    match cell(cells, from) {
        Some(piece) => attacks_as(cells, piece, from, to),
        None => false,
    }
}

/// The squares of the pieces of the colour that attack the square.
pub fn attackers(cells: &[Option<Piece>; 64], by: Colour, to: u8) -> u64 {
    let mut set: u64 = 0;
    for from in 0..64u8 {
        if is_of(cell(cells, from), by) && attacks(cells, from, to) {
            set |= 1u64 << from;
        }
    }
    set
}

/// Whether a king of the side is attacked.
pub fn in_check(cells: &[Option<Piece>; 64], colour: Colour) -> bool {
    for square in 0..64 {
        if holds(cell(cells, square), colour, Kind::King)
            && attackers(cells, colour.other(), square) != 0
        {
            return true;
        }
    }
    false
}

/// The first square of the rank where the side's pieces are at the start.
fn home(colour: Colour) -> u8
    ensures { result ≤ 56 }
{
    match colour {
        Colour::White => 0,
        Colour::Black => 56,
    }
}

/// The goals of king and rook in castling.
fn castling_goals(turn: Colour, m: &Move) -> (u8, u8) {
    if m.from.number() % 8 < m.to.number() % 8 {
        (home(turn) + 6, home(turn) + 5)
    } else {
        (home(turn) + 2, home(turn) + 3)
    }
}

fn is_target(parts: &Parts, m: &Move) -> bool {
    match parts.target {
        Some(target) => target == m.to,
        None => false,
    }
}

/// Whether a pawn goes diagonally to the en passant target.
pub fn is_en_passant(parts: &Parts, m: &Move) -> bool {
    holds(
        cell(&parts.placement, m.from.number()),
        parts.turn,
        Kind::Pawn,
    ) && is_target(parts, m)
        && m.from.number() % 8 != m.to.number() % 8
}

/// The contents of the square after castling.
fn cell_castled(parts: &Parts, m: &Move, square: u8) -> Option<Piece> {
    let (king, rook) = castling_goals(parts.turn, m);
    if square == king {
        cell(&parts.placement, m.from.number())
    } else if square == rook {
        cell(&parts.placement, m.to.number())
    } else if square == m.from.number() || square == m.to.number() {
        None
    } else {
        cell(&parts.placement, square)
    }
}

/// The contents of the square after an ordinary move.
fn cell_moved(parts: &Parts, m: &Move, square: u8) -> Option<Piece> {
    let behind = match parts.turn {
        Colour::White => m.to.number().saturating_sub(8),
        Colour::Black => m.to.number() + 8,
    };
    if square == m.to.number() {
        let Some(piece) = cell(&parts.placement, m.from.number()) else {
            return None;
        };
        return Some(Piece {
            colour: piece.colour,
            kind: m.promotion.unwrap_or(piece.kind),
        });
    }
    if square == m.from.number() || (is_en_passant(parts, m) && square == behind) {
        None
    } else {
        cell(&parts.placement, square)
    }
}

/// The contents of each square after a move: a move onto a piece of the mover's own side is castling.
pub fn placement_after(parts: &Parts, m: &Move) -> [Option<Piece>; 64] {
    let is_castling = is_of(cell(&parts.placement, m.to.number()), parts.turn);
    let mut cells = [None; 64];
    for square in 0..64u8 {
        cells[square as usize] = if is_castling {
            cell_castled(parts, m, square)
        } else {
            cell_moved(parts, m, square)
        };
    }
    cells
}

/// Whether a pawn may go there in one of its ways.
fn goes_as_pawn(parts: &Parts, m: &Move) -> bool {
    let (from, to) = (m.from.number(), m.to.number());
    let (first, last, step, double) = match parts.turn {
        Colour::White => (1, 7, from + 8, from + 16),
        Colour::Black => (6, 0, from.wrapping_sub(8), from.wrapping_sub(16)),
    };
    let is_free = cell(&parts.placement, to).is_none();
    let steps = to == step && is_free;
    let steps_twice = from / 8 == first
        && to == double
        && is_free
        && cell(&parts.placement, step).is_none();
    let takes = attacks(&parts.placement, from, to)
        && (is_of(cell(&parts.placement, to), parts.turn.other()) || is_target(parts, m));
    m.promotion.is_some() == (to / 8 == last) && (steps || steps_twice || takes)
}

/// Whether the piece goes there by its kind, without castling and without regard to the safety of its king.
fn reaches(parts: &Parts, m: &Move) -> bool {
    let mover = cell(&parts.placement, m.from.number());
    if !is_of(mover, parts.turn) || is_of(cell(&parts.placement, m.to.number()), parts.turn) {
        return false;
    }
    if holds(mover, parts.turn, Kind::Pawn) {
        goes_as_pawn(parts, m)
    } else {
        m.promotion.is_none() && attacks(&parts.placement, m.from.number(), m.to.number())
    }
}

/// Whether a square is on the way from one square of a rank to another, both included.
fn is_on_way(from: u8, to: u8, square: u8) -> bool {
    from.min(to) <= square && square <= from.max(to)
}

/// Whether the move is castling that the rules of castling allow, without regard to the king's safety on its goal.
fn castles(parts: &Parts, m: &Move) -> bool {
    let (from, to) = (m.from.number(), m.to.number());
    if !holds(cell(&parts.placement, from), parts.turn, Kind::King)
        || to / 8 != home(parts.turn) / 8
        || !parts.rights.has(parts.turn, to % 8)
        || m.promotion.is_some()
    {
        return false;
    }
    let (king, rook) = castling_goals(parts.turn, m);
    for square in 0..64 {
        let on_kings_way = is_on_way(from, king, square);
        let on_way = on_kings_way || is_on_way(to, rook, square);
        let is_other = square != from && square != to;
        if on_way && is_other && cell(&parts.placement, square).is_some() {
            return false;
        }
        if on_kings_way && attackers(&parts.placement, parts.turn.other(), square) != 0 {
            return false;
        }
    }
    true
}

/// Whether the move is legal.
pub fn is_legal(parts: &Parts, m: &Move) -> bool {
    (reaches(parts, m) || castles(parts, m)) && !in_check(&placement_after(parts, m), parts.turn)
}
