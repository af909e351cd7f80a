//! A hall in plain terms: boards in a row, each with the number of its moves.

use crate::tests::hall::answers::{
    BAD_START, BOARD_EXISTS, CLAIM_REFUSED, GAME_OVER, ILLEGAL, LOG_FULL, NO_SUCH_BOARD, NOT_YET,
    NOT_YOUR_BOARD, OPENED, TOO_FAR_BACK, TOO_MANY_BOARDS, TOO_MANY_FOLLOWERS, WRONG_MODE,
};
use crate::tests::hall::command::{Command, ending};
use crate::tests::hall::room::room;
use crate::tests::hall::seen::Seen;
use c960_game::Outcome;
use std::alloc::Global;
use std::process::Abort;

pub const BOARDS: u16 = 16;

pub const FOLLOWERS: u16 = 2;

pub const CAPACITY: u16 = 3;

pub const PLIES: u16 = 10;

pub const KEYS: usize = 6;

/// The number of no connection.
const NOBODY: u64 = u64::MAX;

/// A board.
#[derive(Clone, Copy)]
pub struct Row {
    pub name: u32,
    pub opener: u64,
    pub key: usize,
    pub plies: u16,
    pub outcome: Option<Outcome>,
    pub followers: u16,
    /// Whether it is known to have no vacant slot.
    pub is_full: bool,
    /// Whether its game has changed since that was last told.
    pub has_changed: bool,
}

/// The connections with a key.
#[derive(Clone, Copy)]
pub enum Stand {
    Gone,
    Here(u32),
    Waits(u64),
}

/// Who speaks: its number, and its key, which is `KEYS` if it has none.
#[derive(Clone, Copy)]
pub struct Speaker {
    pub number: u64,
    pub key: usize,
}

/// Boards whose games are abandoned.
#[derive(Clone, Copy)]
enum Left {
    All,
    /// Those without a key that this number opened.
    By(u64),
    /// Those of this key.
    Of(usize),
}

/// What is answered.
#[derive(Clone, Copy)]
pub enum Answer {
    Text(&'static str),
    /// The move has this place.
    Played(u16),
    /// The follower joins at this place of the board of this index.
    Joined(usize, u16),
}

/// A hall.
#[derive(Drop)]
pub struct Plain {
    pub rows: Vec<Row>,
    pub stands: [Stand; 6],
    pub grace: u64,
    pub time: u64,
    pub is_shut: bool,
    /// Whether a follow that might be made was refused since that was last told.
    has_turned_away: bool,
    /// What has occurred.
    pub seen: Seen,
}

impl Row {
    /// Whether it is the speaker's.
    fn is_of(&self, speaker: Speaker) -> bool {
        self.opener == speaker.number || (speaker.key < KEYS && self.key == speaker.key)
    }

    fn is_left(&self, left: Left) -> bool {
        match left {
            Left::All => true,
            Left::By(number) => self.key == KEYS && self.opener == number,
            Left::Of(key) => self.key == key,
        }
    }

    /// Its game is over, if it was not.
    fn ends(&mut self, outcome: Outcome) {
        if self.outcome.is_none() {
            self.outcome = Some(outcome);
            self.has_changed = true;
        }
    }

    /// What a move in a game that goes on is answered.
    fn submit(&mut self, which: u16) -> Answer {
        if self.plies >= PLIES {
            return Answer::Text(LOG_FULL);
        }
        if self.plies % 4 != which {
            return Answer::Text(ILLEGAL);
        }
        let place = self.plies;
        self.plies = place.wrapping_add(1);
        self.has_changed = true;
        Answer::Played(place)
    }

    /// What the end of a game that goes on is answered.
    fn end(&mut self, which: usize) -> Answer {
        let Some((outcome, answer)) = ending(which) else {
            return Answer::Text(CLAIM_REFUSED);
        };
        // The first position has come back twice after eight moves, and White has the move.
        if outcome == Outcome::Threefold && (self.plies < 8 || self.plies % 2 == 1) {
            return Answer::Text(CLAIM_REFUSED);
        }
        self.ends(outcome);
        Answer::Text(answer)
    }

    /// What a follow from this place of the board of this index is answered.
    fn follow(&mut self, at: usize, place: u16) -> Answer {
        if place > self.plies {
            return Answer::Text(NOT_YET);
        }
        if self.plies.wrapping_sub(place) > CAPACITY {
            return Answer::Text(TOO_FAR_BACK);
        }
        if self.followers >= FOLLOWERS || self.is_full {
            return Answer::Text(TOO_MANY_FOLLOWERS);
        }
        self.followers = self.followers.wrapping_add(1);
        Answer::Joined(at, place)
    }
}

impl Plain {
    /// No boards, with room for all.
    pub fn new(rt: &impl Abort, alloc: Global, grace: u64) -> Plain {
        Plain {
            rows: room(rt, alloc, usize::from(BOARDS)),
            stands: [Stand::Gone; 6],
            grace,
            time: 0,
            is_shut: false,
            has_turned_away: false,
            seen: Seen::new(rt, alloc),
        }
    }

    /// What a command is answered.
    pub fn step(&mut self, speaker: Speaker, command: Command) -> Answer {
        let answer = match command {
            Command::Open(name, start) => self.open(speaker, name, start),
            Command::Submit(name, _) | Command::End(name, _) => self.play(speaker, name, command),
            Command::Follow(name) => self.follow(speaker, name, None),
            Command::FollowFrom(name, from) => self.follow(speaker, name, Some(from)),
        };
        self.seen.note(match answer {
            Answer::Text(text) => text,
            Answer::Played(_) => "played",
            Answer::Joined(_, _) => "following",
        });
        answer
    }

    /// How many moves the board of this name has, or 0.
    pub fn plies(&self, name: u32) -> u16 {
        match self.rows.get(self.find(name)) {
            Some(row) => row.plies,
            None => 0,
        }
    }

    /// The name of some board, if there is one.
    pub fn some_name(&self, number: u32) -> u32 {
        let boards = self.rows.len();
        if boards == 0 {
            return number;
        }
        match self.rows.get(number as usize % boards) {
            Some(row) => row.name,
            None => number,
        }
    }

    /// The name of a board of the speaker's whose game goes on; if there is one, its number is this one or greater.
    pub fn own_going(&self, speaker: Speaker, name: u32) -> Option<u32> {
        let mut own = None;
        for row in self.rows.iter() {
            if row.outcome.is_none() && row.is_of(speaker) {
                own = Some(row.name);
                if row.name >= name {
                    return own;
                }
            }
        }
        own
    }

    /// The index of the board of this name, or how many boards there are.
    fn find(&self, name: u32) -> usize {
        let mut at = 0usize;
        for row in self.rows.iter() {
            if row.name == name {
                return at;
            }
            at = at.wrapping_add(1);
        }
        at
    }

    /// Whether any board is the speaker's.
    pub fn has_any(&self, speaker: Speaker) -> bool {
        for row in self.rows.iter() {
            if row.is_of(speaker) {
                return true;
            }
        }
        false
    }

    /// Whether a board was opened with this key.
    fn has_any_of(&self, key: usize) -> bool {
        self.has_any(Speaker {
            number: NOBODY,
            key,
        })
    }

    fn open(&mut self, speaker: Speaker, name: u32, start: u16) -> Answer {
        let boards = self.rows.len();
        if self.find(name) < boards {
            return Answer::Text(BOARD_EXISTS);
        }
        if start >= 960 {
            return Answer::Text(BAD_START);
        }
        if boards >= usize::from(BOARDS) || boards >= self.rows.capacity() {
            return Answer::Text(TOO_MANY_BOARDS);
        }
        self.rows.push_reserved(Row {
            name,
            opener: speaker.number,
            key: speaker.key,
            plies: 0,
            outcome: None,
            followers: 0,
            is_full: false,
            has_changed: false,
        });
        Answer::Text(OPENED)
    }

    /// What a move or an end is answered.
    fn play(&mut self, speaker: Speaker, name: u32, command: Command) -> Answer {
        let at = self.find(name);
        let Some(row) = self.rows.get_mut(at) else {
            return Answer::Text(NO_SUCH_BOARD);
        };
        if !row.is_of(speaker) {
            return Answer::Text(NOT_YOUR_BOARD);
        }
        if row.outcome.is_some() {
            return Answer::Text(GAME_OVER);
        }
        match command {
            Command::Submit(_, which) => row.submit(which),
            Command::End(_, which) => row.end(which),
            _ => Answer::Text(CLAIM_REFUSED),
        }
    }

    fn follow(&mut self, speaker: Speaker, name: u32, from: Option<u16>) -> Answer {
        if self.has_any(speaker) {
            return Answer::Text(WRONG_MODE);
        }
        let at = self.find(name);
        let answer = match self.rows.get_mut(at) {
            Some(row) => row.follow(at, from.unwrap_or(row.plies)),
            None => Answer::Text(NO_SUCH_BOARD),
        };
        self.has_turned_away = matches!(answer, Answer::Text(_));
        answer
    }

    /// Whether a follow that might be made was refused since that was last told.
    pub fn take_turned_away(&mut self) -> bool {
        let has_turned_away = self.has_turned_away;
        self.has_turned_away = false;
        has_turned_away
    }

    /// The board of this index, if there is one, is known to have no vacant slot, or is not. Returns whether there is one, or never can be.
    pub fn knows_full(&mut self, at: usize, is_full: bool) -> bool {
        match self.rows.get_mut(at) {
            Some(row) => {
                row.is_full = is_full;
                true
            }
            None => at >= usize::from(BOARDS),
        }
    }

    pub fn unfollow(&mut self, at: usize) {
        if let Some(row) = self.rows.get_mut(at) {
            row.followers = row.followers.wrapping_sub(1);
        }
    }

    /// Each game of these that goes on is abandoned.
    fn abandon(&mut self, left: Left) {
        for at in 0..self.rows.len() {
            if let Some(row) = self.rows.get_mut(at) {
                if row.is_left(left) {
                    row.ends(Outcome::Abandoned);
                }
            }
        }
    }

    /// The connections with this key; none if it is no key.
    fn stand(&self, key: usize) -> Stand {
        match self.stands.get(key) {
            Some(stand) => *stand,
            None => Stand::Gone,
        }
    }

    fn set_stand(&mut self, key: usize, stand: Stand) {
        if let Some(place) = self.stands.get_mut(key) {
            *place = stand;
        }
    }

    /// A connection with this key comes, if it is one.
    pub fn arrive(&mut self, key: usize) {
        let count = match self.stand(key) {
            Stand::Gone => 1,
            Stand::Here(count) => count.wrapping_add(1),
            Stand::Waits(_) => {
                self.seen.note("came back");
                1
            }
        };
        self.set_stand(key, Stand::Here(count));
    }

    /// Whether boards of this key wait.
    pub fn waits(&self, key: usize) -> bool {
        matches!(self.stand(key), Stand::Waits(_))
    }

    /// What is left of the connections with this key once one goes.
    fn left(&self, key: usize) -> Stand {
        match self.stand(key) {
            Stand::Here(count) if count > 1 => Stand::Here(count.wrapping_sub(1)),
            _ if self.has_any_of(key) && !self.is_shut && self.grace > 0 => {
                Stand::Waits(self.time.wrapping_add(self.grace))
            }
            _ => Stand::Gone,
        }
    }

    pub fn leave(&mut self, speaker: Speaker) {
        if speaker.key >= KEYS {
            self.abandon(Left::By(speaker.number));
            return;
        }
        let left = self.left(speaker.key);
        self.set_stand(speaker.key, left);
        match left {
            Stand::Here(_) => {}
            Stand::Waits(_) => self.seen.note("waits"),
            Stand::Gone => self.abandon(Left::Of(speaker.key)),
        }
    }

    /// Keys whose time has come are gone, which is noted in this word.
    fn expire(&mut self, now: u64, word: &'static str) {
        for key in 0..KEYS {
            if let Stand::Waits(until) = self.stand(key) {
                if until <= now {
                    self.set_stand(key, Stand::Gone);
                    self.abandon(Left::Of(key));
                    self.seen.note(word);
                }
            }
        }
    }

    pub fn tick(&mut self, now: u64) {
        self.time = self.time.max(now);
        self.expire(now, "ran out");
    }

    pub fn shut(&mut self) {
        self.is_shut = true;
        self.expire(u64::MAX, "shut out");
    }

    pub fn end_all(&mut self) {
        self.abandon(Left::All);
    }

    pub fn next_due(&self) -> Option<u64> {
        let mut next = u64::MAX;
        for stand in self.stands.iter() {
            if let Stand::Waits(until) = *stand {
                next = next.min(until);
            }
        }
        if next == u64::MAX { None } else { Some(next) }
    }
}
