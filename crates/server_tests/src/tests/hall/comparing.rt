//! Whether a hall shows and answers what the model has.

use crate::tests::hall::plain::{Plain, Row};
use crate::tests::hall::values::{Values, last, move_at, name};
use c960_board::Move;
use relay_hall::{Hall, Shown};
use std::alloc::AllocError;

/// Whether a board shows this summary.
fn sums_up(shown: &Shown, row: &Row, values: &Values) -> bool {
    let summary = shown.summary();
    Some(summary.board) == name(row.name)
        && summary.start == 518
        && Some(summary.position) == values.position(row.plies)
        && summary.last == last(row.plies)
        && summary.plies == row.plies
        && summary.outcome == row.outcome
}

/// Whether a board has the position behind its moves, and none behind one more.
fn has_position(shown: &Shown, row: &Row, values: &Values) -> bool {
    shown.position_at(row.plies) == values.position(row.plies)
        && shown.position_at(row.plies.wrapping_add(1)).is_none()
}

/// Whether the hall shows this board.
fn shows_board(shown: &Shown, row: &Row, values: &Values) -> bool {
    sums_up(shown, row, values)
        && has_position(shown, row, values)
        && Some(shown.name()) == name(row.name)
        && shown.outcome() == row.outcome
}

/// Whether the hall shows the board of this index, and finds it by its name.
fn shows_at(hall: &Hall, at: usize, row: &Row, values: &Values) -> bool {
    match hall.board(at) {
        Some(shown) => {
            shows_board(&shown, row, values) && hall.place_of(&shown.name()) == Some(at)
        }
        None => false,
    }
}

/// Whether the hall shows the boards of the model and no others, each under its name, and has the time of its next endings.
pub fn shows(hall: &Hall, plain: &Plain, values: &Values) -> bool {
    let mut at = 0usize;
    for row in plain.rows.iter() {
        if !shows_at(hall, at, row, values) {
            return false;
        }
        at = at.wrapping_add(1);
    }
    hall.len() == at && hall.board(at).is_none() && hall.next_due() == plain.next_due()
}

/// Whether a board of the model has changed since that was last told. It is told by this.
pub fn was_changed(plain: &mut Plain, at: usize) -> bool {
    match plain.rows.get_mut(at) {
        Some(row) => {
            let has_changed = row.has_changed;
            row.has_changed = false;
            has_changed
        }
        None => false,
    }
}

/// Whether no board of the model has changed since that was last told.
pub fn is_quiet(plain: &Plain) -> bool {
    for row in plain.rows.iter() {
        if row.has_changed {
            return false;
        }
    }
    true
}

/// Whether these are the moves of a board from this place on, to the last.
fn are_moves(moves: &[Move], row: &Row, from: u16) -> bool {
    let mut place = from;
    for m in moves.iter() {
        if place >= row.plies || move_at(place) != Some(*m) {
            return false;
        }
        place = place.wrapping_add(1);
    }
    place >= row.plies
}

/// Whether a board tells its moves from this place on, and its outcome.
pub fn tells(
    shown: &Shown,
    row: &Row,
    from: u16,
    moves: &mut Vec<Move>,
) -> Result<bool, AllocError> {
    moves.clear();
    match shown.moves_from(from, moves) {
        Ok(outcome) => Ok(outcome == row.outcome && are_moves(moves.as_slice(), row, from)),
        Err(error) => Err(error),
    }
}
