//! The worked examples of the words.

ghost use Rattle.std.specs.Prelude.{◌≡◌, None, Some};
ghost use Rattle.c960_board.specs.declared.piece.Colour.TheVariants.{Black};
ghost use Rattle.c960_game.specs.declared.outcome.Outcome.TheVariants.{Checkmate};
ghost use Rattle.live_board.specs.Words.{cursor_of, header_word, status_word};

/// Start 518 with queues of two moves; four moves, after which Black mates; a follower that joined at 0 and took nothing: open,
/// closed at length 2, and closed there after one take; one that joined at 1: open, and closed at length 3.
pub fn words_of_the_examples()
    ensures header { header_word 518 2 ≡ 131590 }
    ensures status { status_word 4 (Some (Checkmate Black)) ≡ 131076 }
    ensures joined { cursor_of 0 None ≡ 4294967296 }
    ensures closed { cursor_of 0 (Some 2) ≡ 17179869184 }
    ensures closed_after_one { cursor_of 1 (Some 2) ≡ 17179869185 }
    ensures joined_at_one { cursor_of 1 None ≡ 4294967297 }
    ensures closed_at_three { cursor_of 1 (Some 3) ≡ 21474836481 }
{}
