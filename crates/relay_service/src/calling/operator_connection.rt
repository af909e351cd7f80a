//! A connection that a hall answers.

ghost use Rattle.std.specs.Prelude.{◌≡◌, ◌≤◌, ◌||◌, length, nat_lt, not, take, true, IfOk, OnErr, OnOk};
ghost use Rattle.relay_frames.specs.Events.{number_of, told, text as told_text};
ghost use Rattle.relay_frames.specs.Frames.{close_frame, pong_frame, text_frame};
ghost use Rattle.relay_frames.specs.Reading.{is_midway};
ghost use Rattle.relay_messages.specs.declared.fault.MessageFault.TheVariants.{BadField, NotJson};
ghost use Rattle.relay_pushing.specs.Connections.{OwnsAny};
ghost use Rattle.relay_hall.specs.Steps.{tells_of};
ghost use Rattle.relay_hall.specs.Talk.{are_none};
ghost use Rattle.relay_service.specs.Calling.Answering.{Answers, AnswersInFull, AnswersNext, AnswersNot, Fails, Meets, MeetsNot, after_write, apology, breach_frames, farewell, fault_frame, is_the_last, left_after, newcomer, stage_after, with_due};
ghost use Rattle.relay_service.specs.Calling.Coming.{Feeds};
ghost use Rattle.relay_service.specs.declared.calling.stage.Stage.TheVariants.{Leaves};
ghost use Rattle.relay_frames.specs.declared.output.TheConstants.{MOST_OUTPUT};

mod coming;
mod unasked;

use crate::calling::stage::Stage;
use relay_frames::{Breach, Code, Event, Output, Peer, Progress};
use relay_hall::{Hall, Handed, Owner};
use relay_pushing::Conn;
use std::alloc::{AllocError, Global};
use std::marker::Model;

/// How many messages a connection may send, with pings and pongs. The fragments of one message are not counted.
pub const MOST_MESSAGES: u32 = 1_000_000;

/// A connection, from its first byte on. It is fed the bytes that came, answers what they say, and offers the bytes that are due to the
/// peer. Contracts see an `OperatorRecord`.
#[derive(Drop)]
pub struct OperatorConnection {
    alloc: Global,
    /// What has come of its request, until that is answered.
    head: Vec<u8>,
    /// Whether its request may name a key.
    takes_keys: bool,
    peer: Peer,
    conn: Conn,
    owner: Owner,
    output: Output,
    /// How many messages it may still send.
    left: u32,
    stage: Stage,
    progress: Progress,
}

impl Model for OperatorConnection {
    ghost use Rattle.relay_service.specs.Calling.Answering.{OperatorRecord};

    ghost Value = { OperatorRecord };

    ghost use Rattle.relay_service.specs.Calling.OperatorInner.{operator_of};

    ghost view = { operator_of };
}

/// How many messages may still be sent after an event, if so many might be before.
fn left_after(left: u32, event: &Event) -> u32
    ensures { result ≡ left_after left (told event.now) }
{
    match event {
        Event::Fragment => left,
        _ => left.saturating_sub(1),
    }
}

impl OperatorConnection {
    /// A connection of which nothing has been read, with its number, and whether its request may name a key.
    pub fn new(alloc: Global, opener: u64, takes_keys: bool) -> OperatorConnection
        ensures { result ≡ newcomer opener takes_keys }
    {
        OperatorConnection {
            alloc,
            head: Vec::new(alloc),
            takes_keys,
            peer: Peer::new(alloc),
            conn: Conn::new(alloc),
            owner: Owner { key: None, opener },
            output: Output::new(alloc),
            left: MOST_MESSAGES,
            stage: Stage::Comes,
            progress: Progress::new(),
        }
    }

    /// These bytes came. First they are its request, which is answered once its head is whole, or is refused. What follows the head is what
    /// it asks. Bytes of a connection that leaves are dropped (RFC 6455, sections 1.4 and 7.1.7). What one has sent that follows is kept,
    /// for whatever goes on with it.
    ///
    /// # Errors
    ///
    /// There was no memory. Then nothing has changed.
    pub fn feed(&mut self, bytes: &[u8]) -> Result<(), AllocError>
        ensures fed { OnOk result (Feeds self.old bytes.now self.new) }
        ensures unchanged { OnErr result (self.new ≡ self.old) }
    {
        match self.stage {
            Stage::Comes => self.arrive(bytes),
            Stage::Asks | Stage::HandsOver => self.peer.feed(bytes),
            Stage::Leaves => Ok(()),
        }
    }

    /// Answers what the bytes say next, while the connection asks. Returns whether it did, and the follower that was handed out, with the
    /// name of its board. Whoever gets that has to let it leave in the end: so it is returned after an error as well.
    ///
    /// # Errors
    ///
    /// There was no memory. Nothing has changed; or what was said next is lost, and the connection leaves.
    pub fn answer(&mut self, hall: &mut Hall) -> (Result<bool, AllocError>, Option<Handed>)
        ensures ok { IfOk result.0 (λ some. AnswersNext some self.old hall.old result.1 hall.new self.new) }
        ensures err { OnErr result.0 (Fails self.old hall.old result.1 hall.new self.new) }
    {
        if !self.stage.asks() {
            return (Ok(false), None);
        }
        match self.peer.next() {
            Ok(Some(event)) => self.take_in(event, hall),
            Ok(None) => (Ok(false), None),
            Err(error) => (Err(error), None),
        }
    }

    /// Answers an event, which is let go then.
    fn take_in(
        &mut self,
        event: Event,
        hall: &mut Hall,
    ) -> (Result<bool, AllocError>, Option<Handed>)
        ensures ok { IfOk result.0 (λ some. (some ≡ true) × Meets self.old hall.old (told event) result.1 hall.new self.new) }
        ensures err { OnErr result.0 (MeetsNot self.old hall.old (told event) result.1 hall.new self.new) }
    {
        self.meet(&event, hall)
    }

    /// Answers an event, and asks on or not.
    fn meet(&mut self, event: &Event, hall: &mut Hall) -> (Result<bool, AllocError>, Option<Handed>)
        ensures ok { IfOk result.0 (λ some. (some ≡ true) × Meets self.old hall.old (told event.now) result.1 hall.new self.new) }
        ensures err { OnErr result.0 (MeetsNot self.old hall.old (told event.now) result.1 hall.new self.new) }
    {
        self.left = left_after(self.left, event);
        let before = self.output.len();
        let (answered, handed) = self.answer_in_full(event, hall);
        match answered {
            Ok(()) => {
                self.go_on(event, handed.is_some());
                (Ok(true), handed)
            }
            Err(error) => {
                self.give_up(before);
                (Err(error), handed)
            }
        }
    }

    /// Asks on or not, after an event.
    fn go_on(&mut self, event: &Event, has_handed: bool)
        ensures { self.new ≡ record self.old { stage = stage_after has_handed (is_the_last self.old.left (told event.now)) } }
    {
        self.progress.note(event);
        let is_last = event.is_last() || self.left == 0;
        self.stage = Stage::after(has_handed, is_last);
    }

    /// Takes back what was put behind the first `before` bytes that are due, and leaves.
    fn give_up(&mut self, before: usize)
        requires { before ≤ length self.old.due }
        ensures { self.new ≡ record self.old { due = take before self.old.due; stage = Leaves } }
    {
        self.output.truncate(before);
        self.stage = Stage::Leaves;
    }

    /// Answers an event, and after the last message that may be sent says farewell.
    fn answer_in_full(
        &mut self,
        event: &Event,
        hall: &mut Hall,
    ) -> (Result<(), AllocError>, Option<Handed>)
        ensures ok { OnOk result.0 (AnswersInFull self.old hall.old (told event.now) result.1 hall.new self.new) }
        ensures err { OnErr result.0 (AnswersNot self.old hall.old (told event.now) result.1 hall.new self.new) }
    {
        let (answered, handed) = self.answer_event(event, hall);
        match answered {
            Ok(()) => (self.say_farewell(event, handed.is_some()), handed),
            Err(error) => (Err(error), handed),
        }
    }

    /// After the last message that may be sent puts a close with 1000, unless the connection closes or follows anyway.
    #[tactic(auto, unfolding(relay_frames::specs::Codes::may_be_sent))]
    fn say_farewell(&mut self, event: &Event, has_handed: bool) -> Result<(), AllocError>
        ensures ok { OnOk result (self.new ≡ with_due self.old (farewell self.old.left (told event.now) has_handed)) }
        ensures err { OnErr result (self.new ≡ self.old) }
    {
        if event.is_last() || has_handed || self.left != 0 {
            return Ok(());
        }
        self.put_close(Some(Code::NORMAL))
    }

    /// Answers an event.
    fn answer_event(
        &mut self,
        event: &Event,
        hall: &mut Hall,
    ) -> (Result<(), AllocError>, Option<Handed>)
        ensures ok { OnOk result.0 (Answers self.old hall.old (told event.now) result.1 hall.new self.new) }
        ensures err { OnErr result.0 (AnswersNot self.old hall.old (told event.now) result.1 hall.new self.new) }
    {
        match event {
            Event::Text(text) => self.reply(text.as_str(), hall),
            Event::Binary(_) => (self.put_not_json(hall), None),
            Event::Ping(payload) => (self.put_pong(payload.as_slice()), None),
            Event::Closed(code) => (self.put_close(*code), None),
            Event::Broken(breach) => (self.put_breach(*breach, hall), None),
            Event::Fragment | Event::Pong(_) => (Ok(()), None),
        }
    }

    /// Answers a text.
    fn reply(&mut self, text: &str, hall: &mut Hall) -> (Result<(), AllocError>, Option<Handed>)
        ensures ok { OnOk result.0 (Answers self.old hall.old (told_text text.now) result.1 hall.new self.new) }
        ensures err { OnErr result.0 (AnswersNot self.old hall.old (told_text text.now) result.1 hall.new self.new) }
    {
        let (heard, handed) = hall.hear(&mut self.conn, &self.owner, text.as_bytes());
        match heard {
            Ok(answer) => (self.put_text(answer.as_str()), handed),
            Err(error) => (Err(error), handed),
        }
    }

    /// Puts the frame of a text.
    fn put_text(&mut self, text: &str) -> Result<(), AllocError>
        ensures ok { OnOk result (self.new ≡ with_due self.old (text_frame text.now)) }
        ensures err { OnErr result (self.new ≡ self.old) }
    {
        self.output.text(text)
    }

    /// Puts a pong with these bytes (RFC 6455, section 5.5.3).
    fn put_pong(&mut self, payload: &[u8]) -> Result<(), AllocError>
        ensures ok { OnOk result (self.new ≡ with_due self.old (pong_frame payload.now)) }
        ensures err { OnErr result (self.new ≡ self.old) }
    {
        self.output.pong(payload)
    }

    /// Puts a close with this code or none (RFC 6455, section 5.5.1).
    fn put_close(&mut self, code: Option<Code>) -> Result<(), AllocError>
        ensures ok { OnOk result (self.new ≡ with_due self.old (close_frame (number_of code))) }
        ensures err { OnErr result (self.new ≡ self.old) }
    {
        self.output.close(code)
    }

    /// Answers a message that is no text.
    fn put_not_json(&mut self, hall: &Hall) -> Result<(), AllocError>
        ensures ok { OnOk result (self.new ≡ with_due self.old (fault_frame NotJson)) }
        ensures err { OnErr result (self.new ≡ self.old) }
    {
        let answer = hall.hear_binary()?;
        self.put_text(answer.as_str())
    }

    /// Tells a peer that broke the protocol so.
    fn put_breach(&mut self, breach: Breach, hall: &Hall) -> Result<(), AllocError>
        ensures ok { OnOk result (self.new ≡ with_due self.old (breach_frames breach)) }
        ensures err { OnErr result ((self.new ≡ record self.old { due = self.new.due }) × (take (length self.old.due) self.new.due ≡ self.old.due)) }
    {
        self.put_apology(breach, hall)?;
        self.put_close(Some(breach.code()))
    }

    /// What a peer that broke the protocol is told before the close.
    fn put_apology(&mut self, breach: Breach, hall: &Hall) -> Result<(), AllocError>
        ensures ok { OnOk result (self.new ≡ with_due self.old (apology breach)) }
        ensures err { OnErr result (self.new ≡ self.old) }
    {
        match breach {
            Breach::TooLong => self.put_too_long(hall),
            Breach::NoHead
            | Breach::ReservedBit
            | Breach::Unmasked
            | Breach::ControlInFragments
            | Breach::LongControl
            | Breach::NothingToContinue
            | Breach::MessageWithinMessage
            | Breach::BadClose
            | Breach::NotUtf8
            | Breach::TooManyFragments => Ok(()),
        }
    }

    /// Answers a message that is too long to be read.
    fn put_too_long(&mut self, hall: &Hall) -> Result<(), AllocError>
        ensures ok { OnOk result (self.new ≡ with_due self.old (fault_frame BadField)) }
        ensures err { OnErr result (self.new ≡ self.old) }
    {
        let answer = hall.hear_too_long()?;
        self.put_text(answer.as_str())
    }

    /// Who it is.
    pub fn owner(&self) -> &Owner
        ensures { result.now ≡ self.now.who }
    {
        &self.owner
    }

    /// Whether some board belongs to it: it opened one, or its key owns one.
    #[tactic(auto, using(crate::proofs::CallingFacts::Owning::owns_some))]
    pub fn is_owner(&self, hall: &Hall) -> bool
        ensures { result ≡ (not (are_none self.now.boards) || tells_of hall.now.floor self.now.who OwnsAny) }
    {
        self.conn.has_opened_any() || hall.owns_any(&self.owner)
    }

    /// Whether a whole text or binary message was answered since the last such call. By that a driver measures how long a connection has
    /// asked for nothing. It is no part of what contracts see.
    pub fn take_said(&mut self) -> bool
        ensures { self.new ≡ self.old }
    {
        self.progress.take_said()
    }

    /// Whether something that came whole was answered since the last such call: a message, or a ping, a pong or a close that is not between
    /// the parts of one. By that a driver measures how long the rest of a message takes. It is no part of what contracts see.
    pub fn take_whole(&mut self) -> bool
        ensures { self.new ≡ self.old }
    {
        self.progress.take_whole()
    }

    /// Whether behind its request it is in the middle of a frame or of a message, so that more has to come soon.
    pub fn is_midway(&self) -> bool
        ensures { result ≡ is_midway self.now.reading }
    {
        self.peer.is_midway()
    }

    /// What the connection does.
    pub fn stage(&self) -> Stage
        ensures { result ≡ self.now.stage }
    {
        self.stage
    }

    /// Offers the bytes that are due.
    pub fn due(&self) -> &[u8]
        ensures { result.now ≡ self.now.due }
    {
        self.output.as_slice()
    }

    /// Whether so much is due that the peer is not read until some of it is written.
    pub fn is_full(&self) -> bool
        ensures { result ≡ nat_lt MOST_OUTPUT (length self.now.due) }
    {
        self.output.is_full()
    }

    /// The first `n` of the bytes due were written, or all if they are fewer.
    pub fn wrote(&mut self, n: usize)
        ensures { self.new ≡ after_write self.old n }
    {
        self.output.wrote(n);
    }

    /// What goes on with the connection once it follows: what has been read of its bytes, and the bytes that are due.
    pub fn into_parts(self) -> (Peer, Vec<u8>)
        ensures reading { result.0 ≡ self.reading }
        ensures due { result.1.items ≡ self.due }
    {
        (self.peer, self.output.into_bytes())
    }
}
