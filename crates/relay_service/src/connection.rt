//! A connection of a service, by what it does.

ghost use Rattle.std.specs.Prelude.{◌≡◌, [], None, Some, IfOk, IfSome, OnErr, false, is_some, option_map, take, true};
ghost use Rattle.relay_service.specs.Calling.Answering.{after_write, asks, pinged, sent_away};
ghost use Rattle.relay_service.specs.declared.connection.Connection.TheVariants.{Operator, Follower};
ghost use Rattle.relay_service.specs.Following.Served.{IsOpening};
ghost use Rattle.relay_service.specs.Calls.{AnswersNextTo, AnswersTo, FailsTo, FeedsTo, IfOperator, IfPresent, LeftAs, arrival_at, heard_as, taken_up};
ghost use Rattle.relay_service.specs.Looking.{is_full_in, is_midway_in, stage_of, stage_of_follower, stage_of_operator, was_cut_in};
ghost use Rattle.relay_service.specs.Record.{follower_in, opened, operator_in, owner_in, present_in};

mod following;

use crate::bytes::{Bytes, first_of};
use crate::calling::laws::what_is_handed_over_was_told;
use crate::calling::{OperatorConnection, Stage as OperatorStage};
use crate::following::{FollowerConnection, Stage as FollowerStage};
use crate::stage::Stage;
use relay_frames::Code;
use relay_hall::{Hall, Handed, Key, Owner};
use std::alloc::{AllocError, Global};
use std::mem;
use std::snapshot::Snapshot;

/// A connection of a service.
#[derive(Drop)]
pub enum Connection {
    /// An operator's, whose bytes are answered by the hall. Once it is not present there any more it says nothing, and is sent what is due.
    Operator {
        connection: OperatorConnection,
        is_present: bool,
    },
    /// One that follows a board. It is present in the hall as who it was when it asked.
    Follower {
        connection: FollowerConnection,
        who: Owner,
        is_present: bool,
    },
}

/// The key with which a connection comes to the hall that was at this stage before: the one that its request named, if that was accepted
/// now.
fn arrival(was: OperatorStage, connection: &OperatorConnection) -> Option<Key>
    ensures { result ≡ arrival_at was connection.now }
{
    if was == OperatorStage::Comes && connection.stage() == OperatorStage::Asks {
        connection.owner().key
    } else {
        None
    }
}

/// What an operator's connection does that is present in the hall.
fn stage_of_operator(stage: OperatorStage) -> Stage
    ensures { result ≡ stage_of_operator stage }
{
    match stage {
        OperatorStage::Comes => Stage::Comes,
        OperatorStage::Asks => Stage::Asks,
        OperatorStage::HandsOver => Stage::Follows,
        OperatorStage::Leaves => Stage::Leaves,
    }
}

/// What a connection does that follows, or did.
fn stage_of_follower(stage: FollowerStage) -> Stage
    ensures { result ≡ stage_of_follower stage }
{
    match stage {
        FollowerStage::Follows => Stage::Follows,
        FollowerStage::Over(_) | FollowerStage::Cut | FollowerStage::Left | FollowerStage::Failed =>
            Stage::Leaves,
    }
}

impl Connection {
    /// An operator's of which nothing has come yet.
    pub(crate) fn new(alloc: Global, number: u64, takes_keys: bool) -> Connection
        ensures { result ≡ opened number takes_keys }
    {
        Connection::Operator {
            connection: OperatorConnection::new(alloc, number, takes_keys),
            is_present: true,
        }
    }

    // ---- What it is.

    /// The connection of an operator.
    pub(crate) fn operator(&self) -> Option<&OperatorConnection>
        ensures { option_map (λ c. c.now) result ≡ operator_in (Some self.now) }
    {
        match self {
            Connection::Operator { connection, .. } => Some(connection),
            Connection::Follower { .. } => None,
        }
    }

    /// The connection of one that follows.
    pub(crate) fn follower(&self) -> Option<&FollowerConnection>
        ensures { option_map (λ f. f.now) result ≡ follower_in (Some self.now) }
    {
        match self {
            Connection::Operator { .. } => None,
            Connection::Follower { connection, .. } => Some(connection),
        }
    }

    /// Whether it is an operator's that is present in the hall.
    pub(crate) fn is_present(&self) -> bool
        ensures { result ≡ is_some (present_in (Some self.now)) }
    {
        match self {
            Connection::Operator { is_present, .. } => *is_present,
            Connection::Follower { .. } => false,
        }
    }

    /// Who it is in the hall, if it is present there.
    pub(crate) fn owner(&self) -> Option<Owner>
        ensures { result ≡ owner_in (Some self.now) }
    {
        match self {
            Connection::Operator {
                connection,
                is_present,
            } if *is_present => Some(*connection.owner()),
            Connection::Follower {
                who,
                is_present,
                ..
            } if *is_present => Some(*who),
            _ => None,
        }
    }

    /// What it does.
    pub(crate) fn stage(&self) -> Stage
        ensures { result ≡ stage_of self.now }
    {
        match self {
            Connection::Operator {
                connection,
                is_present,
            } if *is_present => { stage_of_operator(connection.stage()) }
            Connection::Operator { .. } => Stage::Leaves,
            Connection::Follower { connection, .. } => stage_of_follower(connection.stage()),
        }
    }

    /// Whether it was cut off from the board that it followed, and told so.
    pub(crate) fn was_cut(&self) -> bool
        ensures { result ≡ was_cut_in (Some self.now) }
    {
        match self {
            Connection::Operator { .. } => false,
            Connection::Follower { connection, .. } => {
                matches!(connection.stage(), FollowerStage::Cut)
            }
        }
    }

    /// Whether so much is due to it that it is not heard.
    pub(crate) fn is_full(&self) -> bool
        ensures { result ≡ is_full_in (Some self.now) }
    {
        match self {
            Connection::Operator { connection, .. } => connection.is_full(),
            Connection::Follower { connection, .. } => connection.is_full(),
        }
    }

    /// Whether it is in the middle of a frame or of a message.
    pub(crate) fn is_midway(&self) -> bool
        ensures { result ≡ is_midway_in (Some self.now) }
    {
        match self {
            Connection::Operator { connection, .. } => connection.is_midway(),
            Connection::Follower { connection, .. } => connection.is_midway(),
        }
    }

    // ---- What is done to an operator's. Nothing is done to any other.

    /// These bytes came. Returns the key with which it comes to the hall by that.
    ///
    /// # Errors
    ///
    /// There was no memory. Nothing has changed.
    pub(crate) fn feed(&mut self, bytes: &[u8]) -> Result<Option<Key>, AllocError>
        ensures fed { IfOk result (λ key. IfPresent self.old (λ c. FeedsTo c bytes.now key self.new)) }
        ensures unchanged { OnErr result (self.new ≡ self.old) }
    {
        match self {
            Connection::Operator { connection, .. } => {
                let was = connection.stage();
                connection.feed(bytes)?;
                Ok(arrival(was, connection))
            }
            Connection::Follower { .. } => Ok(None),
        }
    }

    /// Answers what it says next, by this hall. If a follower is handed out the connection follows from then on. Returns as well what was
    /// handed out, as clauses see it.
    ///
    /// # Errors
    ///
    /// There was no memory. A follower that was handed out has left its board again.
    pub(crate) fn answer(
        &mut self,
        alloc: Global,
        hall: &mut Hall,
    ) -> (Result<bool, AllocError>, Snapshot<Option<Handed>>)
        ensures ok { IfOk result.0 (λ some. IfPresent self.old (λ c. AnswersTo c some hall.old result.1.value hall.new self.new)) }
        ensures err { OnErr result.0 (IfPresent self.old (λ c. FailsTo c hall.old result.1.value hall.new self.new)) }
    {
        what_is_handed_over_was_told();
        let (answered, handed) = self.answer_next(hall);
        let what = Snapshot::of(&handed);
        self.take_up(alloc, answered.is_ok(), handed);
        (answered, what)
    }

    /// Answers what it says next, by this hall. Returns as well what was handed out.
    ///
    /// # Errors
    ///
    /// There was no memory.
    fn answer_next(&mut self, hall: &mut Hall) -> (Result<bool, AllocError>, Option<Handed>)
        ensures ok { IfOk result.0 (λ some. IfPresent self.old (λ c. AnswersNextTo c some hall.old result.1 hall.new self.new)) }
        ensures err { OnErr result.0 (IfPresent self.old (λ c. FailsTo c hall.old result.1 hall.new self.new)) }
        ensures none { present_in (Some self.old) ≡ None → result.1 ≡ None }
    {
        match self {
            Connection::Operator {
                connection,
                is_present,
            } if *is_present => connection.answer(hall),
            _ => (Ok(false), None),
        }
    }

    /// If something was handed out to it and it was told so, it follows from now on; if it was not told, the follower leaves its board
    /// again.
    fn take_up(&mut self, alloc: Global, is_told: bool, handed: Option<Handed>)
        requires told { is_told ≡ true → IfSome handed (λ h. IfOperator self.old (λ c here. IsOpening c.due h.follower.part)) }
        requires untaken { IfSome handed (λ h. h.follower.part.taken ≡ []) }
        ensures { IfOperator self.old (λ c here. self.new ≡ taken_up is_told handed c here) }
    {
        match handed {
            None => {}
            Some(handed) if is_told => self.follow(alloc, handed),
            Some(handed) => {
                let _ = handed.follower.leave();
            }
        }
    }

    /// It follows what was handed out from now on.
    fn follow(&mut self, alloc: Global, handed: Handed)
        requires told { IfOperator self.old (λ c here. IsOpening c.due handed.follower.part) }
        requires untaken { handed.follower.part.taken ≡ [] }
        ensures { IfOperator self.old (λ c here. self.new ≡ heard_as (Some handed) c here) }
    {
        let asked = mem::replace(self, Connection::new(alloc, 0, false));
        if let Connection::Operator {
            connection,
            is_present,
        } = asked
        {
            let who = *connection.owner();
            let (peer, opening) = connection.into_parts();
            *self = Connection::Follower {
                connection: FollowerConnection::new(handed, peer, opening),
                who,
                is_present,
            };
        }
    }

    /// The first `n` of the bytes due were sent, or all if they are fewer. Returns these.
    pub(crate) fn sent(&mut self, n: usize) -> Bytes
        ensures { IfOperator self.old (λ c here. (result.items ≡ take n c.due) × (self.new ≡ Operator (after_write c n) here)) }
    {
        match self {
            Connection::Operator { connection, .. } => {
                let bytes = first_of(connection.due(), n);
                connection.wrote(n);
                bytes
            }
            Connection::Follower { .. } => Bytes::of(&[]),
        }
    }

    /// Puts a ping behind what is due, if it asks. Returns whether it does.
    ///
    /// # Errors
    ///
    /// There was no memory. Nothing has changed.
    pub(crate) fn ping(&mut self) -> Result<bool, AllocError>
        ensures ok { IfOk result (λ some. IfPresent self.old (λ c. (asks c.stage ≡ some) × (self.new ≡ Operator (pinged c) true))) }
        ensures err { OnErr result (self.new ≡ self.old) }
    {
        match self {
            Connection::Operator { connection, .. } => {
                let asks = connection.stage() == OperatorStage::Asks;
                connection.ping()?;
                Ok(asks)
            }
            Connection::Follower { .. } => Ok(false),
        }
    }

    /// Puts a close with this code behind what is due, if it asks: then it says no more. Returns whether it did.
    ///
    /// # Errors
    ///
    /// There was no memory. Nothing has changed.
    pub(crate) fn close(&mut self, code: Code) -> Result<bool, AllocError>
        ensures ok { IfOk result (λ some. IfPresent self.old (λ c. (asks c.stage ≡ some) × (self.new ≡ Operator (sent_away c code.number) true))) }
        ensures err { OnErr result (self.new ≡ self.old) }
    {
        match self {
            Connection::Operator { connection, .. } => {
                let asks = connection.stage() == OperatorStage::Asks;
                connection.send_away(code)?;
                Ok(asks)
            }
            Connection::Follower { .. } => Ok(false),
        }
    }

    /// It is not present in the hall any more. If it follows it leaves its board.
    pub(crate) fn leave(&mut self)
        ensures { LeftAs self.old self.new }
    {
        match self {
            Connection::Operator { is_present, .. } => *is_present = false,
            Connection::Follower {
                connection,
                is_present,
                ..
            } => {
                connection.leave();
                *is_present = false;
            }
        }
    }

    /// Whether it has said a whole message since the last such call.
    pub(crate) fn take_said(&mut self) -> bool
        ensures { self.new ≡ self.old }
    {
        match self {
            Connection::Operator { connection, .. } => connection.take_said(),
            Connection::Follower { .. } => false,
        }
    }

    /// Whether something has come whole since the last such call.
    pub(crate) fn take_whole(&mut self) -> bool
        ensures { self.new ≡ self.old }
    {
        match self {
            Connection::Operator { connection, .. } => connection.take_whole(),
            Connection::Follower { connection, .. } => connection.take_whole(),
        }
    }
}
