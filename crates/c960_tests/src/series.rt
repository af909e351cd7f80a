//! A small example of a caller: moves made one after another.

ghost use Rattle.std.specs.Prelude.{◌≡◌, ◌+◌, length};

use c960_board::Move;
use c960_game::Game;

/// Makes two moves of a game. Returns how many were accepted.
pub fn play_both(game: &mut Game, first: Move, second: Move) -> usize
    ensures { length game.new.log ≡ length game.old.log + result }
{
    let one = usize::from(game.play(first).is_ok());
    let two = usize::from(game.play(second).is_ok());
    one + two
}
