//! Stalemate (FIDE Laws, Article 5.2.1).

use crate::tests::claims::claim;
use crate::tests::rules::reading::position_of;
use c960_board::Colour;
use c960_rules::{State, any_legal, in_check, legal_moves, state};
use std::alloc::AllocError;

#[test]
fn a_king_without_a_move_and_not_in_check_is_stalemated(rt: HostRuntime) -> Result<(), AllocError> {
    let position = position_of(&rt, "7k/5Q2/6K1/8/8/8/8/8 b - - 0 1");
    let count = legal_moves(rt.alloc(), &position)?.len();
    claim(&rt, count == 0, "no move is listed");
    claim(&rt, !any_legal(&position), "no move is legal");
    let is_check = in_check(&position.position(), Colour::Black);
    claim(&rt, !is_check, "no check");
    claim(&rt, state(&position) == State::Stalemate, "stalemate");
    Ok(())
}
