//! Positions that no legal move leads to (FIDE Laws, Article 3.9.2), and attacks by a pinned piece (Article 3.1.2).

use crate::tests::claims::claim;
use crate::tests::rules::reading::move_of;
use c960_board::{Colour, Square, read_fen};
use c960_rules::{Lawful, attacked};

/// Whether the position of a text is returned, because it is not lawful.
fn is_given_back(text: &str) -> bool {
    match read_fen(text.as_bytes()) {
        Ok(position) => Lawful::of(position) == Err(position),
        Err(_) => false,
    }
}

#[test]
fn a_position_whose_waiting_side_is_in_check_is_given_back(rt: HostRuntime) {
    for text in [
        "4k3/4R3/8/8/8/8/8/4K3 w - - 0 1",
        "4k3/8/8/8/8/8/4r3/4K3 b - - 0 1",
    ] {
        claim(&rt, is_given_back(text), text);
    }
}

/// Whether the position of a text is lawful.
fn is_lawful(text: &str) -> bool {
    match read_fen(text.as_bytes()) {
        Ok(position) => match Lawful::of(position) {
            Ok(lawful) => lawful.position() == position,
            Err(_) => false,
        },
        Err(_) => false,
    }
}

#[test]
fn a_position_whose_moving_side_is_in_check_is_lawful(rt: HostRuntime) {
    for text in [
        "4k3/4R3/8/8/8/8/8/4K3 b - - 0 1",
        "4k3/8/8/8/8/8/4r3/4K3 w - - 0 1",
    ] {
        claim(&rt, is_lawful(text), text);
    }
}

/// Whether only White attacks a square of the position of a text.
fn white_alone_attacks(text: &str, square: Square) -> bool {
    match read_fen(text.as_bytes()) {
        Ok(position) => {
            attacked(&position, Colour::White, square)
                && !attacked(&position, Colour::Black, square)
        }
        Err(_) => false,
    }
}

#[test]
fn a_pinned_piece_attacks(rt: HostRuntime) {
    let square = move_of(&rt, "e2d3").to;
    let is_so = white_alone_attacks("4r1k1/8/8/8/8/8/4B3/4K3 w - - 0 1", square);
    claim(&rt, is_so, "d3");
}
