//! What those do and get that follow.

use crate::tests::claims::claim;
use crate::tests::hall::plain::{CAPACITY, Row};
use crate::tests::hall::room::TWICE;
use crate::tests::service::frames::{
    MESSAGE, PAYLOAD, PONG, say, tell, tell_close, tell_cut, tell_move, tell_over,
};
use crate::tests::service::people::{Course, Person, Saying};
use crate::tests::service::scene::Scene;
use std::process::Abort;

/// How many bytes of messages a follower may send that nobody answers, and how many a message has besides.
const MOST_UNANSWERED: usize = 65536;

const HEAD: usize = 6;

impl Scene {
    /// What a connection says next that follows.
    pub fn saying(&mut self) -> Saying {
        match self.dice.below(24) {
            0..=7 => Saying::Ping,
            8..=9 => Saying::Pong,
            10..=21 => Saying::Message,
            22 => Saying::Close,
            _ => Saying::Breach,
        }
    }

    /// A connection that follows says something. One that was through while it said it is not answered.
    pub fn begins_to_say(&mut self, rt: &impl Abort, person: &mut Person) {
        let saying = self.saying();
        person.unsent.clear();
        say(rt, &mut person.unsent, saying);
        person.saying = Some(saying);
    }

    /// What a connection that follows has said is answered.
    pub fn is_served(&mut self, rt: &impl Abort, person: &mut Person) {
        match person.saying.take() {
            Some(Saying::Ping) => tell(rt, &mut person.due, PONG, PAYLOAD),
            Some(Saying::Message) => self.is_passed_over(rt, person),
            Some(Saying::Close) => self.is_through(rt, person, 1000, "closes"),
            Some(Saying::Breach) => self.is_through(rt, person, 1002, "breach"),
            Some(Saying::Pong) | None => {}
        }
    }

    /// A message is not answered, but counted.
    fn is_passed_over(&mut self, rt: &impl Abort, person: &mut Person) {
        person.unanswered = person.unanswered.wrapping_add(MESSAGE).wrapping_add(HEAD);
        if person.unanswered > MOST_UNANSWERED {
            self.is_through(rt, person, 1008, "too many messages");
        }
    }

    /// A connection leaves its board behind a close with this code, which is noted in this word.
    pub fn is_through(
        &mut self,
        rt: &impl Abort,
        person: &mut Person,
        code: u16,
        word: &'static str,
    ) {
        tell_close(rt, &mut person.due, code);
        self.leaves_board(person, word);
    }

    /// A connection leaves its board, which is noted in this word.
    pub fn leaves_board(&mut self, person: &mut Person, word: &'static str) {
        person.course = Course::Through;
        self.plain.unfollow(person.board);
        self.plain.seen.note(word);
    }

    /// A connection is pushed the moves of its board. Nothing is pushed to others.
    pub fn is_pushed(&mut self, rt: &impl Abort, person: &mut Person) {
        if !self.pushes(rt, person) || person.course != Course::Follows {
            return;
        }
        match self.plain.rows.get(person.board) {
            Some(row) => {
                let row = *row;
                self.gets(rt, person, &row);
            }
            None => panic!(rt; "no board"),
        }
    }

    /// Whether all is pushed that is to be; otherwise the connection is lost.
    fn pushes(&mut self, rt: &impl Abort, person: &mut Person) -> bool {
        let mut pushed = self.service.push(person.number);
        if pushed.is_err() {
            if self.is_lost(rt, person) {
                return false;
            }
            pushed = self.service.push(person.number);
        }
        claim(rt, pushed.expect(rt, TWICE) == false, "pushed");
        true
    }

    /// A connection gets the moves of its board, and the end, if it has one: it was too slow, or the game has ended.
    fn gets(&mut self, rt: &impl Abort, person: &mut Person, row: &Row) {
        let due = row.plies.wrapping_sub(person.next);
        for _ in 0..due.min(CAPACITY) {
            tell_move(rt, &mut person.due, person.next);
            person.next = person.next.wrapping_add(1);
        }
        if due > CAPACITY {
            tell_cut(rt, &mut person.due);
            self.leaves_board(person, "cut");
        } else if row.outcome.is_none() && due == 0 {
            self.plain.seen.note("nothing yet");
        } else if let Some(outcome) = row.outcome {
            tell_over(rt, &mut person.due, outcome, self.is_ending);
            let word = if self.is_ending {
                "over, as the server ends"
            } else {
                "over"
            };
            self.leaves_board(person, word);
        }
    }

    /// Whether a connection that follows does so at the board of this index, and takes the move of this place next.
    pub fn is_at(&self, person: &Person) -> bool {
        let (board, next) = (person.board, u64::from(person.next));
        person.course != Course::Follows
            || (self.service.place(person.number) == Some(board)
                && self.service.next(person.number) == Some(next))
    }
}
