//! Texts of positions that are built from their parts.

use crate::tests::claims::claim;
use c960_board::{CastlingRights, Colour, Kind, Parts, Piece, Position, Square, write_fen};

/// The contents of a square of a drawing: a capital is White's, a full stop is an empty square.
fn piece(letter: u8) -> Option<Piece> {
    let kind = match letter.to_ascii_lowercase() {
        b'p' => Kind::Pawn,
        b'n' => Kind::Knight,
        b'b' => Kind::Bishop,
        b'r' => Kind::Rook,
        b'q' => Kind::Queen,
        b'k' => Kind::King,
        _ => return None,
    };
    let colour = if letter.is_ascii_uppercase() {
        Colour::White
    } else {
        Colour::Black
    };
    Some(Piece { colour, kind })
}

/// The squares of a board that is drawn from rank 8 to rank 1.
fn drawn(board: &[u8; 64]) -> [Option<Piece>; 64] {
    let mut placement = [None; 64];
    for square in 0..64 {
        placement[square] = piece(board[8 * (7 - square / 8) + square % 8]);
    }
    placement
}

/// The rights with the rooks of these files.
fn rights(white: &[usize], black: &[usize]) -> CastlingRights {
    CastlingRights {
        white: files(white),
        black: files(black),
    }
}

fn files(rooks: &[usize]) -> [bool; 8] {
    let mut files = [false; 8];
    for file in 0..8 {
        files[file] = rooks.contains(&file);
    }
    files
}

/// Whether the position with these parts is written as this text.
fn is_written(parts: Parts, text: &[u8]) -> bool {
    match Position::make(parts) {
        Some(position) => write_fen(&position).as_slice() == text,
        None => false,
    }
}

#[test]
fn text_with_a_right(rt: HostRuntime) {
    let board = b"\
        ....k...\
        ........\
        ........\
        ........\
        ........\
        ........\
        ........\
        .RK.....";
    let parts = Parts {
        placement: drawn(board),
        turn: Colour::White,
        rights: rights(&[1], &[]),
        target: None,
        half_moves: 0,
        number: 1,
    };
    let is_so = is_written(parts, b"4k3/8/8/8/8/8/8/1RK5 w B - 0 1");
    claim(&rt, is_so, "the text");
}

#[test]
fn longest_text(rt: HostRuntime) {
    let board = b"\
        rnbqkbnr\
        pppp.ppp\
        nnnn.nnn\
        nnnnpnnn\
        NNNNNNNN\
        NNNNNNNN\
        PPPPPPPP\
        RNBQKBNR";
    let parts = Parts {
        placement: drawn(board),
        turn: Colour::White,
        rights: rights(&[0, 7], &[0, 7]),
        target: Square::new(44),
        half_moves: 65535,
        number: 65535,
    };
    let whole =
        b"rnbqkbnr/pppp1ppp/nnnn1nnn/nnnnpnnn/NNNNNNNN/NNNNNNNN/PPPPPPPP/RNBQKBNR w HAha e6 65535 65535";
    claim(&rt, whole.len() == 93, "93 bytes");
    claim(&rt, is_written(parts, whole), "the text");
}

#[test]
fn text_with_no_rights(rt: HostRuntime) {
    let board = b"\
        ........\
        ..k..p..\
        ........\
        .......q\
        b...P...\
        ........\
        ........\
        .R....K.";
    let parts = Parts {
        placement: drawn(board),
        turn: Colour::Black,
        rights: rights(&[], &[]),
        target: Square::new(20),
        half_moves: 0,
        number: 40,
    };
    let is_so = is_written(parts, b"8/2k2p2/8/7q/b3P3/8/8/1R4K1 b - e3 0 40");
    claim(&rt, is_so, "the text");
}
