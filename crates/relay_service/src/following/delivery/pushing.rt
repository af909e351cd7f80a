//! A push: the moves that the follower takes are put while little is due, and then the end, if there is one. First it takes what it sees.
//! Then it meets its board in the hall, by which all that it took is known to be that board's. If that shows that something was left, it
//! takes that, and meets its board again. What a meeting told alone decides on the end: so it is told behind the whole log, or at the
//! closing.

ghost use Rattle.std.specs.Prelude.{◌≡◌, ◌&&◌, [], length, cond, nat_le, not, IfOk, OnErr, OnOk};
ghost use Rattle.relay_service.specs.Following.Boards.{IsIn};
ghost use Rattle.relay_service.specs.Following.Calls.{left as left_as, puts};
ghost use Rattle.relay_service.specs.Following.Pieces.{an_end};
ghost use Rattle.relay_service.specs.Following.Pushing.{CatchesUp, Delivers, DeliversLost, EndsBy, Finishes, FinishesNot, GoesOn, IsAt, IsMet, MeetsIn, PushFails, Pushes, StopsAt, TakesOne, is_through, stage_behind};
ghost use Rattle.relay_service.specs.declared.following.stage.Stage.TheVariants.{Follows};

use crate::following::delivery::Delivery;
use crate::following::stage::Stage;
use c960_game::Outcome;
use relay_core::{Account, Taken};
use relay_frames::Code;
use relay_hall::Hall;
use relay_pushing::LastText;
use std::alloc::AllocError;

/// The code of the close of a connection that was cut off.
const CUT_OFF: u16 = 4001;

/// What is known behind some takes and a meeting.
#[derive(Drop)]
pub(crate) struct Round {
    /// Whether all that was taken was put; if not, there was no memory for one move.
    is_put: bool,
    account: Account,
    outcome: Option<Outcome>,
}

impl Round {
    /// Whether all is taken, to the closing or to the present.
    fn is_through(&self) -> bool
        ensures { result ≡ is_through self.now }
    {
        u32::from(self.account.joined) + u32::from(self.account.taken)
            == u32::from(self.account.limit)
    }
}

/// The code of the close of a connection that was cut off.
#[tactic(auto, unfolding(relay_frames::specs::Codes::may_be_sent))]
fn cut_code() -> Code
    ensures { result.number ≡ 4001 }
{
    match Code::new(CUT_OFF) {
        Some(code) => code,
        None => unreachable!(),
    }
}

/// The code of the close behind the end of a game.
#[tactic(auto, unfolding(relay_frames::specs::Codes::may_be_sent))]
fn end_code(is_ending: bool) -> Code
    ensures { result.number ≡ cond is_ending 1001 1000 }
{
    if is_ending { Code::AWAY } else { Code::NORMAL }
}

impl Delivery {
    /// Puts the moves that its follower takes of the board of its name in this hall while little is due, and then its end if there is one:
    /// the game's, closed with 1001 if the server is ending, or that it was cut off. Then it follows no more. Returns whether more can be
    /// taken once what is due is sent.
    ///
    /// # Errors
    ///
    /// There was no memory. All that was taken was put; or one move was not, and it follows no more.
    pub(crate) fn push(
        &mut self,
        hall: &mut Hall,
        last: &mut LastText,
        most: usize,
        is_ending: bool,
    ) -> Result<bool, AllocError>
        requires is_in { IsIn hall.old.floor self.old }
        requires follows { self.old.stage ≡ Follows }
        ensures ok { IfOk result (λ more. Pushes hall.old.floor most is_ending self.old self.new more) }
        ensures err { OnErr result (PushFails most self.old self.new) }
        ensures is_in { IsIn hall.new.floor self.new }
        ensures hall { hall.new ≡ hall.old }
    {
        let round = self.go_on(hall, last, most, u64::MAX);
        let round = self.catch_up(hall, last, most, round);
        self.finish(last, &round, is_ending)
    }

    /// Takes what was left in a round, if something was, little is due, and there was memory.
    fn catch_up(&mut self, hall: &mut Hall, last: &mut LastText, most: usize, round: Round) -> Round
        requires met { IsMet hall.old.floor self.old round }
        ensures caught_up { CatchesUp round.is_put hall.old.floor most round self.old self.new result }
        ensures hall { hall.new ≡ hall.old }
    {
        if !self.may_go_on(most, &round) {
            return round;
        }
        let limit = u64::from(round.account.limit);
        self.go_on(hall, last, most, limit)
    }

    /// Whether something is left behind a round that may be taken now.
    fn may_go_on(&self, most: usize, round: &Round) -> bool
        ensures { result ≡ (round.now.is_put && (not (is_through round.now) && not (nat_le most (length self.now.due)))) }
    {
        round.is_put && !round.is_through() && !self.is_much(most)
    }

    /// Takes moves to this place of the log, and meets its board then.
    fn go_on(&mut self, hall: &mut Hall, last: &mut LastText, most: usize, limit: u64) -> Round
        requires is_in { IsIn hall.old.floor self.old }
        requires follows { self.old.stage ≡ Follows }
        ensures went { GoesOn hall.old.floor most limit self.old self.new result }
        ensures hall { hall.new ≡ hall.old }
    {
        let is_put = self.take_to(last, most, limit).is_ok();
        let (account, outcome) = self.meet(hall);
        Round {
            is_put,
            account,
            outcome,
        }
    }

    /// Meets the board of its name in the hall.
    fn meet(&mut self, hall: &mut Hall) -> (Account, Option<Outcome>)
        requires is_at { IsAt hall.old.floor self.old }
        requires follows { self.old.stage ≡ Follows }
        ensures met { MeetsIn hall.old.floor self.old self.new result.0 result.1 }
        ensures hall { hall.new ≡ hall.old }
    {
        match self.standing.meet(hall, &self.board) {
            Some(met) => met,
            None => unreachable!(),
        }
    }

    /// Puts the end if all that there is was taken, and leaves without memory for a move.
    fn finish(
        &mut self,
        last: &mut LastText,
        round: &Round,
        is_ending: bool,
    ) -> Result<bool, AllocError>
        requires follows { self.old.stage ≡ Follows }
        ensures ok { IfOk result (λ more. Finishes more is_ending round.now self.old self.new) }
        ensures err { OnErr result (FinishesNot round.now self.old self.new) }
    {
        if !round.is_put {
            self.standing.leave(Stage::Failed);
            return Err(AllocError);
        }
        if !round.is_through() {
            return Ok(true);
        }
        self.end_if_due(last, round, is_ending)?;
        Ok(false)
    }

    /// Puts the end if there is one, and then follows no more.
    fn end_if_due(
        &mut self,
        last: &mut LastText,
        round: &Round,
        is_ending: bool,
    ) -> Result<(), AllocError>
        requires follows { self.old.stage ≡ Follows }
        ensures ok { OnOk result (EndsBy is_ending (stage_behind round.now.account.cut round.now.outcome) self.old self.new) }
        ensures err { OnErr result (self.new ≡ self.old) }
    {
        if round.account.cut {
            return self.end(last, Taken::Cut, cut_code(), Stage::Cut);
        }
        match round.outcome {
            Some(outcome) => self.end(
                last,
                Taken::Over(outcome),
                end_code(is_ending),
                Stage::Over(outcome),
            ),
            None => Ok(()),
        }
    }

    /// Puts what tells of this end and a close with this code, and then follows no more.
    fn end(
        &mut self,
        last: &mut LastText,
        end: Taken,
        code: Code,
        stage: Stage,
    ) -> Result<(), AllocError>
        requires follows { self.old.stage ≡ Follows }
        requires ends { stage ≡ Follows → ⊥ }
        ensures ok { OnOk result (self.new ≡ left_as (puts self.old (an_end end code.number)) stage) }
        ensures err { OnErr result (self.new ≡ self.old) }
    {
        self.put_end(last, end, code)?;
        self.standing.leave(stage);
        Ok(())
    }

    /// Takes moves to this place of the log and puts them, while little is due.
    ///
    /// # Errors
    ///
    /// There was no memory to put one of them.
    fn take_to(&mut self, last: &mut LastText, most: usize, limit: u64) -> Result<(), AllocError>
        requires follows { self.old.stage ≡ Follows }
        ensures ok { OnOk result (Delivers most self.old self.new [] [] × StopsAt most limit self.old self.new) }
        ensures err { OnErr result (DeliversLost most self.old self.new) }
        ensures stage { self.new.stage ≡ Follows }
    {
        let next = self.next().unwrap_or(limit);
        for place in next..limit {
            if !self.take_one(last, most)? {
                return Ok(());
            }
        }
        Ok(())
    }

    /// Takes the next move and puts it, if little is due. Returns whether it did.
    ///
    /// # Errors
    ///
    /// There was no memory to put it.
    fn take_one(&mut self, last: &mut LastText, most: usize) -> Result<bool, AllocError>
        requires follows { self.old.stage ≡ Follows }
        ensures ok { IfOk result (λ some. TakesOne most some self.old self.new) }
        ensures err { OnErr result (DeliversLost most self.old self.new) }
        ensures stage { self.new.stage ≡ Follows }
    {
        if self.is_much(most) {
            return Ok(false);
        }
        let taken = self.standing.take();
        self.put_taken(last, taken)
    }

    /// Whether so much is due that no more is taken.
    fn is_much(&self, most: usize) -> bool
        ensures { result ≡ nat_le most (length self.now.due) }
    {
        self.output.len() >= most
    }
}
