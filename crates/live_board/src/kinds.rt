//! What each kind of step shows to the seat that makes it. The numbers are those of the table of kinds in docs/LIVE.md.

ghost use Rattle.live_board.specs.Views.{bare, given_part, kept_part, same, spent, taking_in};
ghost use Rattle.live_board.specs.KindViews.{checks, closes, finishes, follows, leaves, looks, publishes, reads, stores, takes};

use crate::view::View;
use atomic_table::{Join, Play, Split};

/// 2: a vacant cursor becomes open.
pub struct Follow;

impl Play<(), View> for Follow {
    ghost then = { follows };
}

/// 3 and 12: the first carried part moves to a seat of its own, and a seat takes in the parts of another.
pub struct Hand;

impl Split<View> for Hand {
    ghost left = { kept_part };

    ghost right = { given_part };
}

impl Join<View> for Hand {
    ghost both = { taking_in };

    ghost spent = { spent };
}

/// 3: a seat that carries nothing is made.
pub struct Spare;

impl Split<View> for Spare {
    ghost left = { same };

    ghost right = { bare };
}

/// 4: the move is stored at the length.
pub struct Store;

impl Play<(), View> for Store {
    ghost then = { stores };
}

/// 5: the length rises by one, with the outcome of the move stored.
pub struct Publish;

impl Play<(), View> for Publish {
    ghost then = { publishes };
}

/// 5: the ending's outcome is stored.
pub struct Finish;

impl Play<(), View> for Finish {
    ghost then = { finishes };
}

/// 6: the status is loaded.
pub struct Look;

impl Play<(), View> for Look {
    ghost then = { looks };
}

/// 7: a move is loaded.
pub struct Read;

impl Play<(), View> for Read {
    ghost then = { reads };
}

/// 8: one is added to a cursor.
pub struct Take;

impl Play<(), View> for Take {
    ghost then = { takes };
}

/// 9: a cursor is loaded.
pub struct Check;

impl Play<(), View> for Check {
    ghost then = { checks };
}

/// 10: a full open cursor is exchanged for a closed one.
pub struct Close;

impl Play<(), View> for Close {
    ghost then = { closes };
}

/// 11: a cursor is swapped for a vacant one.
pub struct Leave;

impl Play<(), View> for Leave {
    ghost then = { leaves };
}
