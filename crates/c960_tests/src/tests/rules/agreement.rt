//! The list of legal moves and the calls that need no list agree with their plain references.

use crate::tests::claims::claim;
use crate::tests::rules::reading::{played, position_of};
use crate::tests::rules::reference::{ep_of_list, legal_by, state_of_list};
use c960_board::Move;
use c960_rules::{Lawful, any_legal, ep_legal, is_legal, legal_moves, state};
use std::alloc::{AllocError, Global};
use std::process::Abort;

/// Whether all agree at a position with these legal moves.
fn agree_at(alloc: Global, lawful: &Lawful, moves: &[Move]) -> Result<bool, AllocError> {
    let tried = legal_by(alloc, |m| is_legal(lawful, m))?;
    let tried = tried.as_slice();
    Ok(
        moves == tried
            && any_legal(lawful) == !tried.is_empty()
            && state(lawful) == state_of_list(lawful, tried)
            && ep_legal(lawful) == ep_of_list(lawful, tried),
    )
}

/// Asserts that all agree at a position, and at all positions within this many plies of it.
fn assert_agreement(
    rt: &impl Abort,
    alloc: Global,
    lawful: &Lawful,
    plies: u8,
) -> Result<(), AllocError> {
    let moves = legal_moves(alloc, lawful)?;
    let do_agree = agree_at(alloc, lawful, moves.as_slice()) == Ok(true);
    claim(rt, do_agree, "all agree");
    if plies > 0 {
        for m in moves.iter() {
            let next = played(lawful, *m).expect(rt, "a listed move is legal");
            assert_agreement(rt, alloc, &next, plies - 1)?;
        }
    }
    Ok(())
}

/// Positions with castling, targets, promotions, pins, checks and ends.
static POSITIONS: [&str; 15] = [
    "rnbqkbnr/pppppppp/8/8/8/8/PPPPPPPP/RNBQKBNR w HAha - 0 1",
    "r3k2r/p1ppqpb1/bn2pnp1/3PN3/1p2P3/2N2Q1p/PPPBBPPP/R3K2R w HAha - 0 1",
    "4k3/8/8/8/8/8/8/5KR1 w G - 0 1",
    "4k3/8/8/8/8/8/8/RN4K1 w A - 0 1",
    "1r2k3/8/8/8/8/8/8/R3K3 w A - 0 1",
    "4r1k1/8/8/8/8/6p1/6P1/5KRB w G - 0 1",
    "r3k2r/8/8/8/8/8/8/R3K2R w HAha - 0 1",
    "4k3/8/4p3/3pP3/8/1q6/8/K7 w - d6 0 1",
    "4k3/8/8/3pP3/2b5/8/8/5K2 w - d6 0 1",
    "r3k2r/1P4P1/8/8/8/8/8/4K3 w ha - 0 1",
    "1rqbkrbn/1ppppp1p/1n6/p1N3p1/8/2P4P/PP1PPPP1/1RQBKRBN w FBfb - 0 9",
    "7k/5Q2/6K1/8/8/8/8/8 w - - 0 1",
    "rnbqkbnr/pppp1ppp/8/4p3/6P1/5P2/PPPPP2P/RNBQKBNR b HAha g3 0 2",
    "8/8/8/K2pP2r/8/8/8/4k3 w - d6 0 1",
    "rnbqkbnr/ppp1pppp/8/8/3pP3/8/PPPP1PPP/RNBQKBNR b HAha e3 0 3",
];

/// The positions.
fn positions() -> &'static [&'static str] {
    &POSITIONS
}

#[test]
fn all_agree_within_two_plies(rt: HostRuntime) -> Result<(), AllocError> {
    for text in positions() {
        assert_agreement(&rt, rt.alloc(), &position_of(&rt, *text), 2)?;
    }
    Ok(())
}
