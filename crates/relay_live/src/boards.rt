//! What a step does to one board of the map.

ghost use Rattle.std.specs.Prelude.{◌≡◌, ◌+◌, ◌<◌, ◌≤◌, ℕ, List, length, position, slice_get, true, option_map, OnErr, OnOk, Some, None};
ghost use mathlib.Core.Option.{some};
ghost use lib.ListN.{get_elem?};
ghost use Rattle.std.specs.Map.{keys_of, lookup, values_of};
ghost use Rattle.std.specs.HashMap.{spare};
ghost use Rattle.c960_game.specs.Ending.{named_outcome};
ghost use Rattle.relay_core.specs.BoardAnswers.{end_answer_at, play_answer_at};
ghost use Rattle.relay_core.specs.Held.Followers.{account_of};
ghost use Rattle.relay_core.specs.Name.{same_name};
ghost use Rattle.relay_core.specs.Replies.{taken_of};
ghost use Rattle.live_board.specs.declared.note.Note.TheVariants.{Vacant};
ghost use Rattle.live_board.specs.Sound.{IsSound};
ghost use Rattle.live_board.specs.Views.{each_part, finished, followed, left_at, sees};
ghost use Rattle.live_board.specs.Board.{game_of};
ghost use Rattle.live_board.specs.Carried.{closing_at, due_at, TookAt};
ghost use Rattle.live_board.specs.TableWriter.{NoneVacantBelow, Submitted};
ghost use Rattle.live_board.specs.Seats.{BoardSeat};
ghost use Rattle.relay_live.specs.Live.{IsSeated, Swapped, held_in};

use crate::seated::{Seated, account};
use c960_board::Move;
use c960_game::{Ending, Outcome, Refusal};
use indexmap::IndexMap;
use live_board::Board;
use relay_core::{Account, BoardKey, Taken};

/// Makes a move on a board. Returns its place and the outcome that it brings about, if any.
#[tactic(auto, using(std::proofs::lemmas::Map::Steps::set_value_same))]
pub(crate) fn play(
    boards: &mut IndexMap<BoardKey, Board>,
    board: BoardKey,
    m: Move,
) -> Result<(u16, Option<Outcome>), Refusal>
    ensures answer { result ≡ play_answer_at m (option_map (λ b. game_of b.knows) (lookup (same_name board) boards.old.entries)) }
    ensures refused { OnErr result (boards.new.entries ≡ boards.old.entries) }
    ensures swapped { OnOk result (Swapped (λ b c. Submitted m b.knows c.knows × IsSound c.knows) board boards.old.entries boards.new.entries) }
    ensures room { spare boards.new ≡ spare boards.old }
{
    let Some(live) = boards.get_mut(&board) else {
        return Err(Refusal::NoSuchBoard);
    };
    live.submit(m)
}

/// Ends the game of a board. Returns the outcome that the ending names.
#[tactic(auto, using(std::proofs::lemmas::Map::Steps::set_value_same))]
pub(crate) fn end(
    boards: &mut IndexMap<BoardKey, Board>,
    board: BoardKey,
    ending: Ending,
) -> Result<Outcome, Refusal>
    ensures answer { result ≡ end_answer_at ending (option_map (λ b. game_of b.knows) (lookup (same_name board) boards.old.entries)) }
    ensures refused { OnErr result (boards.new.entries ≡ boards.old.entries) }
    ensures swapped { OnOk result (Swapped (λ b c. (c.knows ≡ finished (Some (named_outcome ending)) b.knows) × IsSound c.knows) board boards.old.entries boards.new.entries) }
    ensures room { spare boards.new ≡ spare boards.old }
{
    let Some(live) = boards.get_mut(&board) else {
        return Err(Refusal::NoSuchBoard);
    };
    live.end(ending)
}

/// Makes a take for a spectator that is seated at a board.
pub(crate) fn take_for(boards: &mut IndexMap<BoardKey, Board>, seated: &Seated) -> Taken
    requires seated { IsSeated boards.old.entries seated.now }
    requires fits { seated.now.joined + seated.now.taken < 65536 }
    ensures swapped { Swapped (λ b c. TookAt seated.now.slot result b.knows c.knows × IsSound c.knows
        × (result ≡ taken_of (seated.now.joined + seated.now.taken) b.knows.outcome (closing_at b.knows seated.now.slot) (due_at b.knows seated.now.slot (seated.now.joined + seated.now.taken))))
        seated.now.board boards.old.entries boards.new.entries }
    ensures room { spare boards.new ≡ spare boards.old }
{
    let Some(live) = boards.get_index_mut(seated.index) else {
        unreachable!();
    };
    live.take_at(seated.slot, seated.joined + seated.taken)
}

/// Lets a follower join in the first vacant slot of the board at an index of the map. It takes from a place of its log on.
pub(crate) fn join(boards: &mut IndexMap<BoardKey, Board>, index: usize, slot: u64, from: u16)
    requires { (b : BoardSeat) × (slice_get (values_of boards.old.entries) index ≡ Some b)
        × (slot < b.knows.setup.limits.followers) × (get_elem? b.knows.notes slot ≡ some Vacant) × NoneVacantBelow slot b.knows
        × (from ≤ length b.knows.log) × (length b.knows.log ≤ from + b.knows.setup.limits.capacity) }
    ensures swapped { (name : List ℕ) → position (same_name name) (keys_of boards.old.entries) ≡ Some index
        → Swapped (λ b c. (c.knows ≡ followed slot from b.knows) × IsSound c.knows) name boards.old.entries boards.new.entries }
    ensures room { spare boards.new ≡ spare boards.old }
{
    let Some(live) = boards.get_index_mut(index) else {
        unreachable!();
    };
    live.join_first(slot, from);
}

/// Removes a spectator that is seated at a board, and returns what it has had.
pub(crate) fn leave_for(boards: &mut IndexMap<BoardKey, Board>, seated: Seated) -> Account
    requires seated { IsSeated boards.old.entries seated }
    requires sound { (b : BoardSeat) → lookup (same_name seated.board) boards.old.entries ≡ Some b → IsSound b.knows × (b.knows.owns ≡ true) }
    ensures swapped { Swapped (λ b c. ((status cursor : ℕ) × (c.knows ≡ left_at (seated.slot + 2) cursor (each_part (sees status) b.knows))) × IsSound c.knows
        × ((capacity : ℕ) → result ≡ account_of (length b.knows.log) (held_in capacity b.knows seated)))
        seated.board boards.old.entries boards.new.entries }
    ensures room { spare boards.new ≡ spare boards.old }
{
    let Some(live) = boards.get_index_mut(seated.index) else {
        unreachable!();
    };
    let present = live.len();
    let closing = live.leave_at(seated.slot);
    account(seated, present, closing)
}
