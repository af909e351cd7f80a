//! What remains of a follower that left.

use crate::View;
use atomic_table::Seat;
use std::marker::Model;

/// The seat of a follower that left, kept for its view alone. It has no calls.
#[derive(Drop)]
pub struct Gone {
    /// Its view has the part that left.
    pub(crate) seat: Seat<(), View>,
}

impl Model for Gone {
    ghost use Rattle.live_board.specs.Seats.{BoardSeat};

    ghost Value = { BoardSeat };

    ghost view = { λ g. record { table = g.seat.table_id; knows = g.seat.me.0 } };
}
