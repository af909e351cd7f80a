//! What a step does to the map of boards.

ghost use Rattle.std.specs.Prelude.{◌≡◌, option_map, map, IfSome, MatchOption, None, OnErr, OnOk, Err, Some};
ghost use Rattle.std.specs.List.{list_any};
ghost use Rattle.std.specs.Map.{lookup};
ghost use Rattle.std.specs.HashMap.{spare};
ghost use Rattle.c960_game.specs.Limits.{LimitNumbers};
ghost use Rattle.c960_game.specs.Record.{with_move};
ghost use Rattle.relay_core.specs.BoardAnswers.{end_answer_at, ended_by, play_answer_at};
ghost use Rattle.relay_core.specs.Held.Stands.{IsKept};
ghost use Rattle.relay_core.specs.Name.{same_name};
ghost use Rattle.live_board.specs.Accounts.{account_of};
ghost use Rattle.relay_hall.specs.Meeting.{Meets};
ghost use Rattle.relay_hall.specs.Keys.{is_owner};
ghost use Rattle.relay_hall.specs.Hosting.{HandsAt, Swapped, Turned, abandoned_by, game_in, held_by, shown_board};

use crate::changed_boards::ChangedBoards;
use crate::hosted::Hosted;
use crate::leaver::Leaver;
use crate::owner::Owner;
use c960_board::Move;
use c960_game::{Ending, Outcome, Refusal, Replaying};
use indexmap::IndexMap;
use live_board::Follower;
use relay_core::{Account, BoardKey};

/// Makes a move on a board. Returns its place and the outcome that it brings about, if any.
#[tactic(auto, using(std::proofs::lemmas::Map::Steps::set_value_same))]
pub(crate) fn play(
    boards: &mut IndexMap<BoardKey, Hosted>,
    board: BoardKey,
    m: Move,
) -> Result<(u16, Option<Outcome>), Refusal>
    ensures answer { result ≡ play_answer_at m (option_map game_in (lookup (same_name board) boards.old.entries)) }
    ensures refused { OnErr result (boards.new.entries ≡ boards.old.entries) }
    ensures swapped { OnOk result (Swapped (Turned (λ g. with_move g m)) board boards.old.entries boards.new.entries) }
    ensures room { spare boards.new ≡ spare boards.old }
{
    let Some(hosted) = boards.get_mut(&board) else {
        return Err(Refusal::NoSuchBoard);
    };
    hosted.submit(m)
}

/// Ends the game of a board. Returns the outcome that the ending names.
#[tactic(auto, using(std::proofs::lemmas::Map::Steps::set_value_same))]
pub(crate) fn end(
    boards: &mut IndexMap<BoardKey, Hosted>,
    board: BoardKey,
    ending: Ending,
) -> Result<Outcome, Refusal>
    ensures answer { result ≡ end_answer_at ending (option_map game_in (lookup (same_name board) boards.old.entries)) }
    ensures refused { OnErr result (boards.new.entries ≡ boards.old.entries) }
    ensures swapped { OnOk result (Swapped (Turned (ended_by ending)) board boards.old.entries boards.new.entries) }
    ensures room { spare boards.new ≡ spare boards.old }
{
    let Some(hosted) = boards.get_mut(&board) else {
        return Err(Refusal::NoSuchBoard);
    };
    hosted.end(ending)
}

/// Hands out a follower of a board, with the position from which it takes on, which has yet to be worked out.
pub(crate) fn hand_out(
    boards: &mut IndexMap<BoardKey, Hosted>,
    board: BoardKey,
    from: Option<u16>,
) -> Result<(Follower, Replaying), Refusal>
    ensures answer { HandsAt (lookup (same_name board) boards.old.entries) from result }
    ensures turned { MatchOption (lookup (same_name board) boards.old.entries) (boards.new.entries ≡ boards.old.entries)
        (λ _. Swapped (Turned (λ g. g)) board boards.old.entries boards.new.entries) }
    ensures room { spare boards.new ≡ spare boards.old }
{
    let Some(hosted) = boards.get_mut(&board) else {
        return Err(Refusal::NoSuchBoard);
    };
    hosted.follow(from)
}

/// A board and a follower at its table compare what they know. None if there is no such board.
pub(crate) fn meet_at(
    boards: &mut IndexMap<BoardKey, Hosted>,
    board: BoardKey,
    follower: &mut Follower,
) -> Option<(Account, Option<Outcome>)>
    requires { IfSome (lookup (same_name board) boards.old.entries) (λ h. follower.old.table ≡ h.board.table) }
    ensures met { MatchOption (lookup (same_name board) boards.old.entries) ((result ≡ None) × (follower.new ≡ follower.old))
        (λ h. (result ≡ Some (account_of follower.new.part, (game_in h).outcome)) × Meets (shown_board h) follower.old follower.new) }
    ensures turned { MatchOption (lookup (same_name board) boards.old.entries) (boards.new.entries ≡ boards.old.entries)
        (λ _. Swapped (Turned (λ g. g)) board boards.old.entries boards.new.entries) }
    ensures room { spare boards.new ≡ spare boards.old }
{
    let hosted = boards.get_mut(&board)?;
    Some(hosted.meet(follower))
}

/// The refusal of a follow of a board that, if there is one of this name, has no vacant slot. None is looked for.
pub(crate) fn turn_away(
    boards: &IndexMap<BoardKey, Hosted>,
    board: BoardKey,
    from: Option<u16>,
) -> Refusal
    ensures { HandsAt (lookup (same_name board) boards.now.entries) from (Err result) }
{
    match boards.get(&board) {
        Some(hosted) => hosted.turn_away(from),
        None => Refusal::NoSuchBoard,
    }
}

/// Ends, as abandoned, each game that is not over of those whose owners have left, and notes each.
pub(crate) fn end_where<L: Leaver>(
    boards: &mut IndexMap<BoardKey, Hosted>,
    changed: &mut ChangedBoards,
    left: &L,
)
    ensures ended { boards.new.entries ≡ map (λ e. (e.0, abandoned_by (L.gone left.now) e.1)) boards.old.entries }
    ensures kept { (limits : LimitNumbers) → IsKept (held_by limits boards.old.entries) → IsKept (held_by limits boards.new.entries) }
    ensures room { spare boards.new ≡ spare boards.old }
{
    for at in 0..boards.len() {
        let Some(hosted) = boards.get_index_mut(at) else {
            unreachable!();
        };
        let has_ended = hosted.abandon(left);
        note_if(changed, has_ended, at);
    }
}

/// Notes the board of this name if its game has changed.
pub(crate) fn note_change(
    boards: &IndexMap<BoardKey, Hosted>,
    changed: &mut ChangedBoards,
    board: &BoardKey,
    has_changed: bool,
) {
    if let Some(at) = boards.get_index_of(board) {
        note_if(changed, has_changed, at);
    }
}

/// Notes the board of this index if its game has changed.
fn note_if(changed: &mut ChangedBoards, has_changed: bool, at: usize) {
    if has_changed {
        changed.add(at);
    }
}

/// Whether any board belongs to the speaker's key. All of them are looked at, whatever the result. It is never inlined, so that a test can
/// count its instructions: they are as many for each key.
#[inline(never)]
pub(crate) fn owns_any(boards: &IndexMap<BoardKey, Hosted>, speaker: &Owner) -> bool
    ensures { result ≡ list_any (λ e. is_owner speaker.now.key e.1.owner.key) boards.now.entries }
{
    let mut owns = false;
    for place in 0..boards.len() {
        if let Some((_, hosted)) = boards.get_index(place) {
            owns |= speaker.shares_with(&hosted.owner);
        }
    }
    owns
}
