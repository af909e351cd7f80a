//! The state of the side to move: it can go on, or it is checkmated or stalemated.

/// Whether the side to move can go on (FIDE Laws, Articles 5.1.1 and 5.2.1).
#[derive(Clone, Copy, PartialEq, Eq, Debug)]
pub enum State {
    /// There is a legal move.
    Going,
    /// There is no legal move, and the king is in check.
    Checkmate,
    /// There is no legal move, and the king is not in check.
    Stalemate,
}
