//! Texts that are read, and texts that are refused.

use crate::tests::claims::{claim, claim_at, claim_of};
use c960_board::{Colour, Kind, Position, Square, read_fen};

/// Texts of no position, each with the code of its first fault.
static REFUSED: &str = "\
|1
rnbqkbnr/pppppppp/8/8/8/8/PPPPPPPP/RNBQKBNR  w HAha - 0 1|1
rnbqkbnr/pppppppp/8/8/8/8/PPPPPPPP/RNBQKBNR w HAha - 0 1 |1
rnbqkbnr/pppppppp/8/8/8/8/PPPPPPPP/RNBQKBNR w HAha - 0|1
8/8/8/8/8/8/8/8 w - - 0 1|2
rnbqkbnr/pppppppp/44/8/8/8/PPPPPPPP/RNBQKBNR w HAha - 0 1|2
rnbqkbnr/pppppppp/9/8/8/8/PPPPPPPP/RNBQKBNR w HAha - 0 1|2
rnbqkbnr/pppppppp/8/8/8/8/8/PPPPPPPP/RNBQKBNR w HAha - 0 1|2
rnbqkbnr/pppppppp/8/8/8/8/PPPPPPPP/RNBQKBNR x HAha - 0 1|3
rnbqkbnr/pppppppp/8/8/8/8/PPPPPPPP/RNBQKBNR w KQkq - 0 1|4
rnbqkbnr/pppppppp/8/8/8/8/PPPPPPPP/RNBQKBNR w HAHa - 0 1|4
rnbqkbnr/pppppppp/8/8/8/8/PPPPPPPP/RNBQKBNR w HAha- - 0 1|4
rnbqkbnr/pppppppp/8/8/8/8/PPPPPPPP/RNBQKBNR w HAha e3 0 1|5
4k3/4n3/8/4p3/8/8/8/4K3 w - e6 0 1|5
rnbqkbnr/pppppppp/8/8/8/8/PPPPPPPP/RNBQKBNR w HAha - 0 0|6
rnbqkbnr/pppppppp/8/8/8/8/PPPPPPPP/RNBQKBNR w HAha - 00 1|6
rnbqkbnr/pppppppp/8/8/8/8/PPPPPPPP/RNBQKBNR w HAha - 65536 1|6
rnbqkbnr/pppppppp/8/8/8/8/PPPPPPPP/RNBQKBNR w HAha - 0 65536|6
8/8/8/8/8/8/8/8 x x x x|1
8/8/8/8/8/8/8/8 x x x x x|2
4k3/8/8/8/8/8/8/4K3 x x x x x|3
4k3/8/8/8/8/8/8/4K3 w x x x x|4
4k3/8/8/8/8/8/8/4K3 w - x x x|5
";

/// The texts that are refused.
fn refused() -> &'static str {
    REFUSED
}

fn fault_code(text: &str) -> Option<u64> {
    match read_fen(text.as_bytes()) {
        Ok(_) => None,
        Err(fault) => Some(fault.code()),
    }
}

/// Whether the text of a row is refused with the fault of that code.
fn is_refused(row: &str) -> bool {
    let Some((text, code)) = row.split_once('|') else {
        return false;
    };
    match code.parse::<u64>() {
        Ok(code) => fault_code(text) == Some(code),
        Err(_) => false,
    }
}

#[test]
fn texts_of_no_position_are_refused(rt: HostRuntime) {
    claim(&rt, refused().lines().count() == 23, "23 rows");
    for row in refused().lines() {
        claim_of(&rt, is_refused(row), "the refusal", row);
    }
}

/// A text, the side to move of its position, its target, its half-move counter and its move number.
type Read = (&'static str, Colour, Option<u8>, u16, u16);

static READ: [Read; 6] = [
    (
        "rnbqkbnr/pppppppp/8/8/8/8/PPPPPPPP/RNBQKBNR w HAha - 0 1",
        Colour::White,
        None,
        0,
        1,
    ),
    (
        "rnbqkbnr/pppppppp/8/8/8/8/PPPPPPPP/RNBQKBNR w haHA - 0 1",
        Colour::White,
        None,
        0,
        1,
    ),
    (
        "rnbqkbnr/pppppppp/8/8/8/8/PPPPPPPP/RNBQKBNR w HAha - 65535 65535",
        Colour::White,
        None,
        65535,
        65535,
    ),
    (
        "bbqnnrkr/pppppppp/8/8/8/8/PPPPPPPP/BBQNNRKR w fhFH - 0 1",
        Colour::White,
        None,
        0,
        1,
    ),
    (
        "4k3/8/8/4p3/8/8/8/4K3 w - e6 0 1",
        Colour::White,
        Some(44),
        0,
        1,
    ),
    (
        "4k3/8/8/8/4P3/8/8/4K3 b - e3 0 12",
        Colour::Black,
        Some(20),
        0,
        12,
    ),
];

/// The texts that are read.
fn read() -> &'static [Read] {
    &READ
}

/// Whether a text is read as the position of its row.
fn is_read((text, turn, target, half_moves, number): Read) -> bool {
    let Ok(position) = read_fen(text.as_bytes()) else {
        return false;
    };
    let target = match target {
        Some(number) => Square::new(number),
        None => None,
    };
    position.turn() == turn
        && position.target() == target
        && position.half_moves() == half_moves
        && position.number() == number
}

#[test]
fn texts_are_read(rt: HostRuntime) {
    for row in read() {
        claim_of(&rt, is_read(*row), "the position", row.0);
    }
}

/// The piece on the square with this number.
fn piece_on(position: &Position, number: u8) -> Option<(Colour, Kind)> {
    match position.piece_at(Square::new(number)?) {
        Some(piece) => Some((piece.colour, piece.kind)),
        None => None,
    }
}

/// Whether each side may castle with the rook of a file, or neither.
fn may_castle(position: &Position, file: u8, expected: bool) -> bool {
    position.has_right(Colour::White, file) == expected
        && position.has_right(Colour::Black, file) == expected
}

/// Squares by their numbers, and their contents.
static SQUARES: [(u8, Option<(Colour, Kind)>); 9] = [
    (0, Some((Colour::White, Kind::Bishop))),
    (2, Some((Colour::White, Kind::Queen))),
    (3, Some((Colour::White, Kind::Knight))),
    (6, Some((Colour::White, Kind::King))),
    (15, Some((Colour::White, Kind::Pawn))),
    (16, None),
    (48, Some((Colour::Black, Kind::Pawn))),
    (61, Some((Colour::Black, Kind::Rook))),
    (62, Some((Colour::Black, Kind::King))),
];

/// The squares.
fn squares() -> &'static [(u8, Option<(Colour, Kind)>)] {
    &SQUARES
}

#[test]
fn squares_and_rights_are_read(rt: HostRuntime) {
    let position = read_fen(b"bbqnnrkr/pppppppp/8/8/8/8/PPPPPPPP/BBQNNRKR w fhFH - 0 1");
    let position = position.expect(&rt, "a position");
    for (number, expected) in squares() {
        let is_so = piece_on(&position, *number) == *expected;
        claim_at(&rt, is_so, "square", u64::from(*number));
    }
    for file in 0..8 {
        let is_so = may_castle(&position, file, file == 5 || file == 7);
        claim_at(&rt, is_so, "file", u64::from(file));
    }
}

/// Whether two texts are read as the same position.
fn are_alike(text: &str, other: &str) -> bool {
    let position = read_fen(text.as_bytes());
    position.is_ok() && position == read_fen(other.as_bytes())
}

#[test]
fn rights_stand_in_any_order(rt: HostRuntime) {
    let standard = are_alike(
        "rnbqkbnr/pppppppp/8/8/8/8/PPPPPPPP/RNBQKBNR w HAha - 0 1",
        "rnbqkbnr/pppppppp/8/8/8/8/PPPPPPPP/RNBQKBNR w haHA - 0 1",
    );
    claim(&rt, standard, "HAha and haHA");
    let first = are_alike(
        "bbqnnrkr/pppppppp/8/8/8/8/PPPPPPPP/BBQNNRKR w HFhf - 0 1",
        "bbqnnrkr/pppppppp/8/8/8/8/PPPPPPPP/BBQNNRKR w fhFH - 0 1",
    );
    claim(&rt, first, "HFhf and fhFH");
}
