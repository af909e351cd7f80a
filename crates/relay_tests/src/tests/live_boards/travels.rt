//! A follower that moves to another thread and leaves there, and what board and follower know once they have met.

ghost use Rattle.std.specs.Prelude.{◌≡◌};

use crate::tests::claims::claim;
use crate::tests::deeds::{followed, is_full, leaves, opened};
use crate::tests::live_boards::games::limits_of;
use crate::tests::values::{account, move_of};
use c960_game::{Ending, Outcome};
use live_board::{Board, Follower, meet};
use relay_core::{Account, Taken};
use std::process::Abort;
use std::thread;
use std::thread::Threads;

/// What a follower takes in a thread of its own, twice, and its account, since it leaves there.
fn taken_elsewhere<R: Threads + Abort>(rt: &R, mut follower: Follower) -> (Taken, Taken, Account) {
    let child = thread::spawn(rt, move || {
        let first = follower.take();
        let second = follower.take();
        let (told, _) = follower.leave();
        (first, second, told)
    });
    child.expect(rt, "a thread").join(rt)
}

/// Asserts that one more may follow, from place 1 on.
fn assert_room(rt: &impl Abort, board: &mut Board) {
    let next = followed(rt, board, None);
    claim(rt, next.joined() == 1, "the slot is found again");
    claim(rt, next.taken() == 0, "nothing is taken yet");
    drop(next);
}

#[test]
fn a_follower_goes_to_another_thread(rt: HostRuntime) {
    let mut board = opened(&rt, rt.alloc(), 518, limits_of(&rt, 1, 64, 1024));
    let mut follower = board.follow(None).expect(&rt, "one follows");
    let played = board.submit(move_of(&rt, "e2e4"));
    let known = meet(&mut board, &mut follower);
    claim(&rt, played == Ok((0, None)), "e2e4 is played");
    claim(&rt, known == account(0, 0, 1, false), "one move is known");
    claim(&rt, is_full(&mut board), "the slot is taken");
    let (first, second, told) = taken_elsewhere(&rt, follower);
    let e2e4 = Taken::Move(0, move_of(&rt, "e2e4"));
    claim(&rt, first == e2e4, "e2e4 is taken");
    claim(&rt, second == Taken::Nothing, "nothing is behind it");
    claim(&rt, told == account(0, 1, 1, false), "the account");
    assert_room(&rt, &mut board);
    drop(board);
}

/// Asserts that a follower takes this. Its contract says only that it may meet its board as before.
fn assert_taken(rt: &impl Abort, follower: &mut Follower, wanted: Taken, what: &str)
    ensures { follower.new.table ≡ follower.old.table }
{
    let taken = follower.take();
    claim(rt, taken == wanted, what);
}

/// Asserts that a follower takes the first two moves, and then hears that it was closed.
fn assert_two_and_cut(rt: &impl Abort, slow: &mut Follower)
    ensures { slow.new.table ≡ slow.old.table }
{
    let first = Taken::Move(0, move_of(rt, "e2e4"));
    assert_taken(rt, slow, first, "the first move");
    let second = Taken::Move(1, move_of(rt, "e7e5"));
    assert_taken(rt, slow, second, "the second move");
    assert_taken(rt, slow, Taken::Cut, "the closing");
}

#[test]
fn after_a_meeting_it_knows_what_the_board_knows(rt: HostRuntime) {
    let mut board = opened(&rt, rt.alloc(), 518, limits_of(&rt, 1, 2, 1024));
    let mut slow = board.follow(None).expect(&rt, "one follows");
    let two = [
        board.submit(move_of(&rt, "e2e4")),
        board.submit(move_of(&rt, "e7e5")),
    ];
    let open = meet(&mut board, &mut slow);
    let third = board.submit(move_of(&rt, "g1f3"));
    let closed = meet(&mut board, &mut slow);
    assert_two_and_cut(&rt, &mut slow);
    let end = board.end(Ending::Agreed);
    let ended = meet(&mut board, &mut slow);
    claim(
        &rt,
        two == [Ok((0, None)), Ok((1, None))],
        "two moves are played",
    );
    claim(&rt, open == account(0, 0, 2, false), "two moves are known");
    claim(&rt, third == Ok((2, None)), "a third move is played");
    claim(
        &rt,
        closed == account(0, 0, 2, true),
        "the closing is known",
    );
    claim(&rt, end == Ok(Outcome::Agreed), "a draw is agreed");
    claim(&rt, ended == account(0, 2, 2, true), "two are taken");
    claim(&rt, leaves(slow) == account(0, 2, 2, true), "the account");
    drop(board);
}
