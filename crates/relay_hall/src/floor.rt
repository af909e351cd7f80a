//! The boards of a hall, and what the steps of connections make of them.

ghost use Rattle.std.specs.Prelude.{◌≡◌, ℕ, [], None, Some, true, is_some, length, option_map, slice_get, IfOk, IfSome, MatchOption, OnErr, string_bytes};
ghost use Rattle.std.specs.List.{list_any};
ghost use Rattle.std.specs.Map.{lookup};
ghost use Rattle.relay_core.specs.Name.{same_name};
ghost use Rattle.relay_core.specs.declared.step.Step.TheVariants.{Open, Submit, End, Follow};
ghost use Rattle.relay_messages.specs.Answers.{answer_text};
ghost use Rattle.relay_messages.specs.declared.answer.Answer.TheVariants.{Fault};
ghost use Rattle.live_board.specs.Accounts.{account_of};
ghost use Rattle.live_board.specs.Board.{setup_of};
ghost use Rattle.live_board.specs.Views.{starting};
ghost use Rattle.relay_hall.specs.Keys.{is_owner};
ghost use Rattle.relay_hall.specs.Meeting.{Meets};
ghost use Rattle.relay_hall.specs.Reading.{place_of, shown_at};
ghost use Rattle.relay_hall.specs.Steps.{Makes, StateMakes, reply_to_end, reply_to_play};
ghost use Rattle.relay_hall.specs.Talk.{IsAnsweredBy, IsUnansweredBy};
ghost use Rattle.relay_hall.specs.Times.{swept_floor};

use crate::boards::{end, end_where, hand_out, meet_at, note_change, owns_any, play, turn_away};
use crate::changed_boards::ChangedBoards;
use crate::full::Full;
use crate::handed::Handed;
use crate::hosted::Hosted;
use crate::leaver::Leaver;
use crate::owner::Owner;
use crate::shown::Shown;
use c960_board::Move;
use c960_game::{Ending, Limits, Outcome, Refusal};
use indexmap::IndexMap;
use live_board::{Board, Follower};
use relay_core::{Account, BoardKey, BoardName, Reply, Step, may_open};
use relay_messages::{Answer, Decoder, MessageFault, encode};
use relay_pushing::{Conn, Keeper};
use std::alloc::{AllocError, Global};
use std::marker::Model;
use std::mem;

/// The boards, and whose text is answered. Contracts see a `FloorState`.
#[derive(Drop)]
pub(crate) struct Floor {
    alloc: Global,
    /// How many boards there may be, and how much each may hold.
    limits: Limits,
    /// The boards that were opened, with room for all that the limits allow.
    boards: IndexMap<BoardKey, Hosted>,
    /// Which of them have something new.
    changed: ChangedBoards,
    /// Which of them are known to have no vacant slot.
    full: Full,
    /// Whose text is answered.
    speaker: Owner,
    /// The follower of the last accepted follow, until it is taken.
    handed: Option<Handed>,
    /// Whether a follow that might be made was refused since that was last asked.
    has_turned_away: bool,
    /// Whether boards may be opened.
    takes_boards: bool,
}

impl Model for Floor {
    ghost use Rattle.relay_hall.specs.Record.{FloorState};
    ghost use Rattle.std.specs.HashMap.{spare};

    ghost Value = { FloorState };

    ghost use Rattle.relay_hall.specs.Hosting.{IsFloor};
    ghost use Rattle.relay_hall.specs.Inner.{state_of};

    ghost view = { state_of };

    ghost invariant = { λ h. IsFloor h.limits h.boards.entries (spare h.boards) };
}

/// The reply to a move.
fn played(answer: Result<(u16, Option<Outcome>), Refusal>) -> Reply
    ensures { result ≡ reply_to_play answer }
{
    match answer {
        Ok((place, outcome)) => Reply::Played { place, outcome },
        Err(refusal) => Reply::Refused(refusal),
    }
}

/// The reply to an ending.
fn ended(answer: Result<Outcome, Refusal>) -> Reply
    ensures { result ≡ reply_to_end answer }
{
    match answer {
        Ok(outcome) => Reply::Ended(outcome),
        Err(refusal) => Reply::Refused(refusal),
    }
}

/// A board with the game of this start, if boards may be opened.
fn begin(takes_boards: bool, alloc: Global, start: u16, limits: Limits) -> Result<Board, Refusal>
    ensures knows { IfOk result (λ b. b.knows ≡ starting (setup_of start limits)) }
{
    if !takes_boards {
        return Err(Refusal::OutOfMemory);
    }
    Board::open(alloc, start, limits)
}

impl Floor {
    /// No boards, with room for as many as the limits allow.
    ///
    /// # Errors
    ///
    /// There was no memory.
    pub(crate) fn new(alloc: Global, limits: Limits) -> Result<Floor, AllocError>
        ensures floor { IfOk result (λ s. s.floor ≡ record { limits = limits; boards = [] }) }
        ensures empty { IfOk result (λ s. s.handed ≡ None) }
    {
        let changed = ChangedBoards::with_room_for(alloc, usize::from(limits.boards()))?;
        let full = Full::with_room_for(alloc, usize::from(limits.boards()))?;
        Ok(Floor {
            alloc,
            limits,
            boards: IndexMap::with_capacity(alloc, usize::from(limits.boards()))?,
            changed,
            full,
            speaker: Owner {
                key: None,
                opener: 0,
            },
            handed: None,
            has_turned_away: false,
            takes_boards: true,
        })
    }

    /// Opens a board, for the speaker. Refused: `BoardExists`, `BadStart`, `TooManyBoards`, `OutOfMemory`.
    #[inline(never)]
    fn open(&mut self, board: BoardKey, start: u16) -> Reply
        ensures { StateMakes self.old (Open board start) result self.new }
    {
        let is_named = self.boards.contains_key(&board);
        if let Err(refusal) = may_open(is_named, start, self.boards.len(), self.limits.boards()) {
            return Reply::Refused(refusal);
        }
        let Ok(live) = begin(self.takes_boards, self.alloc, start, self.limits) else {
            return Reply::Refused(Refusal::OutOfMemory);
        };
        let hosted = Hosted {
            board: live,
            owner: self.speaker,
        };
        let Ok(_) = self.boards.insert(board, hosted) else {
            unreachable!();
        };
        Reply::Opened
    }

    /// Makes a move on a board. Refused: `NoSuchBoard`, `GameOver`, `LogFull`, `Illegal`.
    #[inline(never)]
    fn submit(&mut self, board: BoardKey, m: Move) -> Reply
        ensures { StateMakes self.old (Submit board m) result self.new }
    {
        let answer = play(&mut self.boards, board, m);
        note_change(&self.boards, &mut self.changed, &board, answer.is_ok());
        played(answer)
    }

    /// Ends the game of a board. Refused: `NoSuchBoard`, `GameOver`, `ClaimRefused`.
    #[inline(never)]
    fn end(&mut self, board: BoardKey, ending: Ending) -> Reply
        ensures { StateMakes self.old (End board ending) result self.new }
    {
        let answer = end(&mut self.boards, board, ending);
        note_change(&self.boards, &mut self.changed, &board, answer.is_ok());
        ended(answer)
    }

    /// Hands out a follower of a board, from a place of its log or from its length. Refused: `NoSuchBoard`, `NotYet`, `TooFarBack`,
    /// `TooManyFollowers`, `OutOfMemory`.
    #[inline(never)]
    fn joins(&mut self, board: BoardName, from: Option<u16>) -> Reply
        ensures { (who : ℕ) → StateMakes self.old (Follow who board from) result self.new }
    {
        match hand_out(&mut self.boards, BoardKey::of(board), from) {
            Ok((follower, replaying)) => {
                let joined = follower.joined();
                self.handed = Some(Handed { board, follower });
                Reply::Following {
                    joined,
                    position: replaying.position(),
                }
            }
            Err(refusal) => {
                self.has_turned_away = true;
                Reply::Refused(refusal)
            }
        }
    }

    /// Refuses a follow of a board of which no slot is vacant. None is looked for. Refused: `NoSuchBoard`, `NotYet`, `TooFarBack`,
    /// `TooManyFollowers`.
    fn turns_away(&mut self, board: BoardName, from: Option<u16>) -> Reply
        ensures makes { (who : ℕ) → StateMakes self.old (Follow who board from) result self.new }
        ensures unchanged { self.new ≡ self.old }
    {
        let refusal = turn_away(&self.boards, BoardKey::of(board), from);
        self.has_turned_away = true;
        Reply::Refused(refusal)
    }

    /// Hands out a follower of a board, unless the board is known to have no vacant slot: then none is looked for. Refused as by `joins`.
    fn follows(&mut self, board: BoardName, from: Option<u16>) -> Reply
        ensures { (who : ℕ) → StateMakes self.old (Follow who board from) result self.new }
    {
        match self.place_of(&board) {
            Some(at) if self.full.has(at) => self.turns_away(board, from),
            _ => self.joins(board, from),
        }
    }

    /// Makes a step.
    fn make(&mut self, step: &Step) -> Reply
        ensures { StateMakes self.old step.now result self.new }
    {
        match *step {
            Step::Open(board, start) => self.open(BoardKey::of(board), start),
            Step::Submit(board, m) => self.submit(BoardKey::of(board), m),
            Step::End(board, ending) => self.end(BoardKey::of(board), ending),
            Step::Follow(_, board, from) => self.follows(board, from),
            // A connection does not ask for what it is sent unasked.
            Step::Take(_) | Step::Leave(_) => Reply::Refused(Refusal::WrongMode),
        }
    }

    /// Answers a text of a connection, for this speaker. The decoder reads it.
    ///
    /// # Errors
    ///
    /// There was no memory for the text of the answer.
    pub(crate) fn answer(
        &mut self,
        decoder: &mut Decoder,
        conn: &mut Conn,
        speaker: &Owner,
        text: &[u8],
    ) -> Result<String, AllocError>
        requires empty { self.old.handed ≡ None }
        ensures ok { IfOk result (λ s. IsAnsweredBy self.old.floor speaker.now conn.old text.now (string_bytes s) self.new.handed self.new.floor conn.new) }
        ensures err { OnErr result (IsUnansweredBy self.old.floor speaker.now conn.old text.now self.new.handed self.new.floor conn.new) }
    {
        self.speaker = *speaker;
        conn.answer_with(decoder, text, self)
    }

    /// Makes a step for this one, who then speaks.
    pub(crate) fn step_of(&mut self, owner: &Owner, step: &Step) -> Reply
        requires empty { self.old.handed ≡ None }
        ensures { Makes self.old.floor owner.now step.now result self.new.handed self.new.floor }
    {
        self.speaker = *owner;
        self.make(step)
    }

    /// The board of this name and a follower at its table compare what they know. None if there is no such board.
    pub(crate) fn meet_at(
        &mut self,
        board: &BoardName,
        follower: &mut Follower,
    ) -> Option<(Account, Option<Outcome>)>
        requires { IfSome (lookup (same_name board.now) self.old.floor.boards) (λ b. follower.old.table ≡ b.table) }
        ensures met { MatchOption (lookup (same_name board.now) self.old.floor.boards) ((result ≡ None) × (follower.new ≡ follower.old))
            (λ b. (result ≡ Some (account_of follower.new.part, b.game.outcome)) × Meets b follower.old follower.new) }
        ensures unchanged { self.new ≡ self.old }
    {
        meet_at(&mut self.boards, BoardKey::of(*board), follower)
    }

    /// Takes what was handed out last, if it was not taken yet.
    pub(crate) fn take_handed(&mut self) -> Option<Handed>
        ensures taken { result ≡ self.old.handed }
        ensures floor { self.new.floor ≡ self.old.floor }
        ensures empty { self.new.handed ≡ None }
    {
        self.handed.take()
    }

    /// The index of a board whose game has changed, once for each since it was last told.
    pub(crate) fn take_changed(&mut self) -> Option<usize>
        ensures { self.new ≡ self.old }
    {
        self.changed.take()
    }

    /// Whether a follow that might be made was refused since the last such call.
    pub(crate) fn take_turned_away(&mut self) -> bool
        ensures { self.new ≡ self.old }
    {
        mem::replace(&mut self.has_turned_away, false)
    }

    /// From now on boards may be opened, or may not: then an open that would be accepted is refused for want of memory.
    pub(crate) fn takes_boards(&mut self, takes: bool)
        ensures { self.new ≡ self.old }
    {
        self.takes_boards = takes;
    }

    /// From now on the board of this index is known to have no vacant slot, or is not.
    pub(crate) fn knows_full(&mut self, at: usize, is_full: bool)
        ensures { self.new ≡ self.old }
    {
        self.full.set(at, is_full);
    }

    /// Ends, as abandoned, each game that is not over of those whose owners have left.
    pub(crate) fn sweep<L: Leaver>(&mut self, left: &L)
        ensures floor { self.new.floor ≡ swept_floor self.old.floor (L.gone left.now) }
        ensures handed { self.new.handed ≡ self.old.handed }
    {
        end_where(&mut self.boards, &mut self.changed, left);
    }

    /// The board of this index, in the order of opening.
    pub(crate) fn board(&self, at: usize) -> Option<Shown<'_>>
        ensures { result ≡ shown_at self.now.floor at }
    {
        let (key, hosted) = self.boards.get_index(at)?;
        Some(Shown {
            name: key.name(),
            hosted,
        })
    }

    /// The index of the board of this name, in the order of opening.
    pub(crate) fn place_of(&self, name: &BoardName) -> Option<usize>
        ensures index { result ≡ place_of self.now.floor name.now }
        ensures found { is_some result ≡ is_some (lookup (same_name name.now) self.now.floor.boards) }
        ensures board { IfSome result (λ at. option_map (λ e. e.1) (slice_get self.now.floor.boards at) ≡ lookup (same_name name.now) self.now.floor.boards) }
    {
        self.boards.get_index_of(&BoardKey::of(*name))
    }

    /// How many boards there are.
    pub(crate) fn len(&self) -> usize
        ensures { result ≡ length self.now.floor.boards }
    {
        self.boards.len()
    }

    /// The text of the answer to a message that has this fault.
    ///
    /// # Errors
    ///
    /// There was no memory.
    pub(crate) fn fault(&self, fault: MessageFault) -> Result<String, AllocError>
        ensures { IfOk result (λ text. string_bytes text ≡ answer_text (Fault fault)) }
    {
        encode(self.alloc, &Answer::Fault(fault))
    }

    /// Whether any board belongs to this one.
    pub(crate) fn has_any_of(&self, owner: &Owner) -> bool
        ensures { result ≡ list_any (λ e. is_owner owner.now.key e.1.owner.key) self.now.floor.boards }
    {
        owns_any(&self.boards, owner)
    }
}

impl Keeper for Floor {
    ghost use Rattle.std.specs.Prelude.{◌≡◌};
    ghost use Rattle.relay_hall.specs.Steps.{StateMakes, tells_of};

    ghost tells = { λ s question answer. answer ≡ tells_of s.floor s.speaker question };

    ghost makes = { λ s step reply t. StateMakes s step reply t };

    fn knows(&self, board: &BoardName) -> bool {
        self.boards.contains_key(&BoardKey::of(*board))
    }

    fn owns(&self, board: &BoardName) -> bool {
        match self.boards.get(&BoardKey::of(*board)) {
            Some(hosted) => self.speaker.shares_with(&hosted.owner),
            None => false,
        }
    }

    fn owns_any(&self) -> bool {
        owns_any(&self.boards, &self.speaker)
    }

    fn step(&mut self, step: Step) -> Reply {
        self.make(&step)
    }
}
