//! Perft, the count with which chess programs compare their lists of legal moves.

ghost use Rattle.std.specs.Prelude.{◌≡◌, ◌+◌, ◌<◌, ◌≤◌, IfOk};
ghost use Rattle.c960_rules.specs.After.{after};
ghost use Rattle.c960_rules.specs.Legal.{Legal};
ghost use Rattle.c960_tests.specs.Perft.{perft};

use c960_board::Move;
use c960_rules::{Lawful, legal_moves, play};
use std::alloc::{AllocError, Global};

/// The position after a legal move.
#[tactic(auto, using(crate::proofs::PerftFacts::after_counters))]
fn after(lawful: &Lawful, m: Move) -> Lawful
    requires legal { Legal lawful.now m }
    requires half_moves { lawful.now.half_moves < 65535 }
    requires number { lawful.now.number < 65535 }
    ensures value { result ≡ after lawful.now m }
    ensures half_moves { result.half_moves ≤ lawful.now.half_moves + 1 }
    ensures number { result.number ≤ lawful.now.number + 1 }
{
    match play(lawful, m) {
        Some(next) => next,
        None => unreachable!(),
    }
}

/// How many sequences of this many legal moves begin at the position. At most four plies are counted, and both counters
/// must have room for them.
///
/// # Errors
///
/// There was no memory.
#[tactic(auto, using(crate::proofs::PerftFacts::listed_legal), unfolding(crate::specs::Perft::perft))]
pub fn perft(alloc: Global, lawful: &Lawful, plies: u8) -> Result<u64, AllocError>
    requires plies { plies ≤ 4 }
    requires half_moves { lawful.now.half_moves + plies ≤ 65535 }
    requires number { lawful.now.number + plies ≤ 65535 }
    ensures { IfOk result (λ n. n ≡ perft plies lawful.now) }
{
    if plies == 0 {
        return Ok(1);
    }
    let moves = legal_moves(alloc, lawful)?;
    let mut sum = 0;
    for m in moves.iter() {
        // `code` promises what is true of every move: its squares are on the board.
        prove!(m.code() < 20480);
        sum += perft(alloc, &after(lawful, *m), plies - 1)?;
    }
    Ok(sum)
}
