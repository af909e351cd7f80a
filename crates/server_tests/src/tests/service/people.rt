//! A connection of a service, from its other end.

use crate::tests::hall::command::Command;
use crate::tests::hall::plain::{KEYS, Speaker};
use crate::tests::hall::room::room;
use std::alloc::Global;
use std::process::Abort;

pub const PEOPLE: u32 = 60;

/// What a connection does.
#[derive(Clone, Copy, PartialEq)]
pub enum Course {
    /// There is none.
    Away,
    /// It sends its request.
    Comes,
    /// It sends commands.
    Asks,
    /// It was closed, and has not gone from the hall.
    Closed,
    /// It has gone from the hall.
    Left,
    /// It follows a board.
    Follows,
    /// It followed a board, which it has left, and has not gone from the hall.
    Through,
}

/// What a connection says that follows.
#[derive(Clone, Copy, PartialEq)]
pub enum Saying {
    Ping,
    Pong,
    /// A binary message of `MESSAGE` bytes.
    Message,
    /// A close with 1000.
    Close,
    /// A frame with a reserved bit (RFC 6455, section 5.2).
    Breach,
}

/// A connection.
#[derive(Drop)]
pub struct Person {
    pub course: Course,
    pub number: u64,
    /// Who speaks for the model. Its key is that of its request.
    pub speaker: Speaker,
    /// What it has yet to send of its request or of a command.
    pub unsent: Vec<u8>,
    pub command: Option<Command>,
    pub saying: Option<Saying>,
    /// What is due to it.
    pub due: Vec<u8>,
    /// The index of the board that it follows.
    pub board: usize,
    /// The place of the move that it takes next.
    pub next: u16,
    /// How many bytes its messages have that nobody answers, with their heads.
    pub unanswered: usize,
}

/// The connections of a scene. Nobody is there yet.
pub fn people(rt: &impl Abort, alloc: Global) -> Vec<Person> {
    let mut all = room(rt, alloc, PEOPLE as usize);
    for _ in 0..PEOPLE {
        if all.len() < all.capacity() {
            all.push_reserved(Person::new(alloc));
        }
    }
    all
}

/// Removes the first `n` bytes, or all.
pub fn remove_first(bytes: &mut Vec<u8>, n: usize) {
    let n = n.min(bytes.len());
    bytes.drain(..n);
}

impl Person {
    /// Nobody yet.
    fn new(alloc: Global) -> Person {
        Person {
            course: Course::Away,
            number: 0,
            speaker: Speaker {
                number: 0,
                key: KEYS,
            },
            unsent: Vec::new(alloc),
            command: None,
            saying: None,
            due: Vec::new(alloc),
            board: 0,
            next: 0,
            unanswered: 0,
        }
    }

    /// It begins anew, with this number and this key.
    pub fn begins(&mut self, number: u64, key: usize) {
        self.course = Course::Comes;
        self.number = number;
        self.speaker = Speaker { number, key };
        self.unsent.clear();
        self.command = None;
        self.saying = None;
        self.due.clear();
    }

    /// It follows the board of this index from this place on.
    pub fn follows(&mut self, board: usize, next: u16) {
        self.course = Course::Follows;
        self.board = board;
        self.next = next;
        self.unanswered = 0;
    }

    /// Whether it has shaken hands and not gone from the hall.
    pub fn is_in_the_hall(&self) -> bool {
        matches!(
            self.course,
            Course::Asks | Course::Closed | Course::Follows | Course::Through
        )
    }
}
