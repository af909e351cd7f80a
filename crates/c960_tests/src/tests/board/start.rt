//! Starts by their number.

use crate::tests::claims::claim;
use c960_board::{Colour, Kind, Piece, Position};

/// Whether White begins a start, and has its king on the square with this number.
fn begins(start: u16, king: usize) -> bool {
    let piece = Piece {
        colour: Colour::White,
        kind: Kind::King,
    };
    match Position::start(start) {
        Some(position) => {
            let parts = position.parts();
            parts.turn == Colour::White && parts.placement.get(king) == Some(&Some(piece))
        }
        None => false,
    }
}

#[test]
fn white_begins_number_518_with_the_king_on_e1(rt: HostRuntime) {
    claim(&rt, begins(518, 4), "White begins, with the king on e1");
}

#[test]
fn there_is_no_start_960(rt: HostRuntime) {
    claim(&rt, Position::start(960).is_none(), "no start");
}
