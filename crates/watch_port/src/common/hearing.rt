//! What clients say, and what they are answered.

use super::Common;
use crate::client::{Client, Gone};
use crate::watch_connection::Doing;
use c960_game::Refusal;
use relay_core::{Reply, Step};
use relay_frames::{Breach, Code, Event, HeadSoFar, acceptance_of, head_so_far, outgoing};
use relay_messages::{Answer, MessageFault, WatchCommand, encode};
use server_loop::{Intake, MOST_PIECES, PIECE_BYTES, Stage, receive};
use std::alloc::AllocError;

impl<'a> Common<'a> {
    /// Reads what a client sends, for a while, and answers it. A piece that is not full was the last of what had come, except for the end:
    /// the system reports everything that comes later. A client that may have sent more is read on in the next turn.
    pub(crate) fn hear(&mut self, client: &mut Client, may_have_ended: bool) -> Result<(), Gone> {
        let mut piece = [0; PIECE_BYTES];
        let mut was_last = false;
        client.is_unread = false;
        self.answer(client)?;
        if !client.connection.peer.is_midway() {
            // What was left of its last turn was whole.
            client.deadlines.owes_no_rest();
        }
        for _ in 0..MOST_PIECES {
            if client.is_deaf() || was_last {
                return self.send(client);
            }
            match receive(&mut client.stream, &mut piece) {
                Intake::Nothing => return self.send(client),
                Intake::End | Intake::Failed => return Err(Gone),
                Intake::Bytes(n) => {
                    self.take_in(client, &piece[..n])?;
                    was_last = n < PIECE_BYTES && !may_have_ended;
                }
            }
        }
        self.send(client)?;
        Ok(self.stands_unread(client)?)
    }

    /// Adds a client to those that are to be read on, only once however much it sends.
    pub(super) fn stands_unread(&mut self, client: &mut Client) -> Result<(), AllocError> {
        if !client.is_unread {
            self.unread.push(client.key)?;
            client.is_unread = true;
        }
        Ok(())
    }

    /// Answers what a client sent.
    fn take_in(&mut self, client: &mut Client, bytes: &[u8]) -> Result<(), Gone> {
        if client.says_no_more() {
            return Ok(());
        }
        let used = self.take_request(client, bytes)?;
        let rest = bytes.get(used..).unwrap_or(&[]);
        client.connection.peer.feed(rest)?;
        self.answer(client)?;
        let is_midway = client.connection.peer.is_midway();
        client.deadlines.hears(self.now(), is_midway);
        Ok(())
    }

    /// Takes what came from a client that sends its request. Returns how many of these bytes belong to the request. Once it is complete, it
    /// is answered, and another stage begins: the client asks from then on. It leaves if its request is refused, and it is told so and
    /// leaves if there was no room for it.
    #[tactic(auto, unfolding(relay_frames::specs::Codes::may_be_sent))]
    fn take_request(&self, client: &mut Client, bytes: &[u8]) -> Result<usize, AllocError> {
        let connection = &mut client.connection;
        let Doing::Comes(head) = &mut connection.doing else {
            return Ok(0);
        };
        let seen = head.len();
        head.extend_from_slice(bytes)?;
        let (used, answer) = match head_so_far(head.as_slice(), seen) {
            HeadSoFar::Part => return Ok(bytes.len()),
            HeadSoFar::Whole(end) => (end.saturating_sub(seen), acceptance_of(&head[..end])),
            HeadSoFar::Refused(refusal) => (bytes.len(), Err(refusal)),
        };
        match answer {
            Ok(acceptance) => {
                acceptance.write(&mut connection.output)?;
                if !client.has_room {
                    connection.close(Code::AGAIN)?;
                }
            }
            Err(refusal) => {
                connection.output.extend_from_slice(refusal.answer())?;
                connection.is_leaving = true;
            }
        }
        connection.doing = Doing::Asks;
        client.deadlines.begins(self.now());
        Ok(used)
    }

    /// Answers what a client has said, until it is owed what it has to be sent first, although it was written to. With a complete message
    /// its time begins again.
    fn answer(&mut self, client: &mut Client) -> Result<(), Gone> {
        for _ in 0..u64::MAX {
            if client.connection.is_owed_first() {
                self.send(client)?;
            }
            if client.connection.is_owed_first() || client.says_no_more() {
                return Ok(());
            }
            let Some(event) = client.connection.peer.next()? else {
                return Ok(());
            };
            if matches!(event, Event::Text(_) | Event::Binary(_)) {
                client.deadlines.begins(self.now());
                client.deadlines.owes_no_rest();
            }
            self.answer_one(client, &event)?;
        }
        Ok(())
    }

    /// Answers one thing that a client said. A message of one that watches is refused, and a binary one is never a command. After a close
    /// the client leaves.
    fn answer_one(&mut self, client: &mut Client, event: &Event) -> Result<(), AllocError> {
        let answer = match event {
            Event::Text(_) | Event::Binary(_) if client.stage() == Stage::Follows => {
                Some(refused(Refusal::WrongMode))
            }
            Event::Text(text) => self.answer_text(client, text.as_str())?,
            Event::Binary(_) => Some(Answer::Fault(MessageFault::NotJson)),
            Event::Broken(Breach::TooLong) => Some(Answer::Fault(MessageFault::BadField)),
            _ => None,
        };
        let connection = &mut client.connection;
        if let Some(answer) = answer {
            let text = encode(self.alloc, &answer)?;
            outgoing::text(text.as_str(), &mut connection.output)?;
        }
        if let Some(frame) = event.answer(self.alloc)? {
            connection.output.extend_from_slice(frame.as_slice())?;
        }
        connection.is_leaving = connection.is_leaving || event.is_last();
        Ok(())
    }

    /// Does what a text of a client that watches nothing asks for. Returns the answer, unless that is what the client is sent from then on.
    fn answer_text(
        &mut self,
        client: &mut Client,
        text: &str,
    ) -> Result<Option<Answer>, AllocError> {
        match self.decoder.decode_watch(text.as_bytes()) {
            Ok(WatchCommand::Boards) => {
                self.watch_all(client)?;
                Ok(None)
            }
            Ok(WatchCommand::Step(step)) => match step {
                Step::Follow(_, board, from) => Ok(self.follow(client, &board, from)?.map(refused)),
                _ => Ok(Some(refused(Refusal::WrongMode))),
            },
            Err(fault) => Ok(Some(Answer::Fault(fault))),
        }
    }
}

/// The answer to a command that is refused.
fn refused(refusal: Refusal) -> Answer {
    Answer::Reply(Reply::Refused(refusal))
}
