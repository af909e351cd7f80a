//! A hall, and loops that are told of its boards.

use crate::tests::chance::{Dice, text_at};
use crate::tests::hall::room::room;
use crate::tests::hall::values::move_text;
use c960_board::Move;
use c960_game::Limits;
use relay_core::BoardName;
use relay_hall::{Hall, Owner, Shown};
use relay_pushing::Conn;
use std::alloc::Global;
use std::process::Abort;
use watch_port::{BoardCopy, BoardTable, Feed, Publisher};

/// Boards, followers of each, moves in a queue, plies of a game.
pub type Numbers = (u16, u16, u16, u16);

/// How many loops there are.
const LOOPS: usize = 3;

/// Endings, of which the last asks for nothing that a relay knows.
static ENDINGS: [&str; 3] = [
    "\"how\":\"agreed\"",
    "\"how\":\"resign\",\"side\":\"black\"",
    "\"how\":\"none\"",
];

fn endings() -> &'static [&'static str] {
    &ENDINGS
}

/// A hall in which one connection opens and plays all boards, and the loops.
#[derive(Drop)]
pub struct Scene {
    alloc: Global,
    dice: Dice,
    boards: u16,
    hall: Hall,
    conn: Conn,
    publisher: Publisher,
    tables: Vec<BoardTable>,
    /// How many boards the publisher was told of.
    known: usize,
    moves: Vec<Move>,
    /// How often a loop did not show all that had happened, and how many moves the games had at most.
    pub late: u32,
    pub longest: u16,
}

/// Whether a copy shows all that the board shows.
fn is_whole(shown: &Shown, copy: &BoardCopy) -> bool {
    let plies = copy.game.len();
    copy.summary() == shown.summary()
        && copy.name == shown.name()
        && copy.outcome == shown.outcome()
        && copy.game.position_at(plies / 2) == shown.position_at(plies / 2)
        && copy.game.position_at(plies.wrapping_add(1)).is_none()
}

/// Whether a copy has the first of these moves, and the outcome only with all of them.
fn is_beginning(moves: &[Move], shown: &Shown, copy: &BoardCopy) -> bool {
    for place in 0..copy.game.len() {
        if copy.game.move_at(place) != moves.get(usize::from(place)).copied() {
            return false;
        }
    }
    match copy.outcome {
        Some(outcome) => shown.outcome() == Some(outcome)
            && usize::from(copy.game.len()) == moves.len(),
        None => true,
    }
}

/// How many moves a board has.
fn plies(shown: Option<Shown>) -> u16 {
    match shown {
        Some(shown) => shown.summary().plies,
        None => 0,
    }
}

impl Scene {
    pub fn new(rt: &impl Abort, alloc: Global, numbers: Numbers, seed: u32) -> Scene {
        let (boards, followers, capacity, plies) = numbers;
        let limits = Limits::new(boards, followers, capacity, plies).expect(rt, "limits");
        let (mut feeds, mut tables) = (room(rt, alloc, LOOPS), room(rt, alloc, LOOPS));
        for _ in 0..LOOPS {
            let (feed, table) = Feed::new(alloc, limits).expect(rt, "memory");
            feeds.push(feed).expect(rt, "memory");
            tables.push(table).expect(rt, "memory");
        }
        Scene {
            alloc,
            dice: Dice { seed },
            boards,
            hall: Hall::new(alloc, limits, 0).expect(rt, "memory"),
            conn: Conn::new(alloc),
            publisher: Publisher::new(alloc, feeds),
            tables,
            known: 0,
            moves: Vec::new(alloc),
            late: 0,
            longest: 0,
        }
    }

    /// One event: something is said, loops are told of what has changed, or one of them takes in what it was told.
    pub fn happens(&mut self, rt: &impl Abort) {
        let boards = self.boards;
        let board = self.dice.few(boards);
        match self.dice.below(16) {
            0 => self.opens(rt, board),
            1 => self.ends(rt, board),
            2..=11 => {
                let place = self.place(rt, board);
                self.plays(rt, board, place);
            }
            12 | 13 => {
                let _ = self.publisher.publish(&self.hall);
            }
            _ => self.one_takes_in(rt),
        }
    }

    /// How many moves the board of this name has, if it was opened.
    fn place(&self, rt: &impl Abort, board: u16) -> u16 {
        let text = format!(in self.alloc; "b{board}").expect(rt, "memory");
        let name = BoardName::new(text.as_bytes()).expect(rt, "a name");
        match self.hall.place_of(&name) {
            Some(at) => plies(self.hall.board(at)),
            None => 0,
        }
    }

    /// A loop takes in what it was told. It shows beginnings then.
    fn one_takes_in(&mut self, rt: &impl Abort) {
        let which = self.dice.below(LOOPS as u32) as usize;
        self.takes_in(which);
        assert!(rt; self.shows_beginnings());
        if !self.shows_all() {
            self.late = self.late.wrapping_add(1);
        }
    }

    /// A loop takes in what it was told. Without memory it shows that it has not.
    fn takes_in(&mut self, which: usize) {
        if let Some(table) = self.tables.get_mut(which) {
            let _ = table.take_in();
        }
    }

    /// All loops take in what they were told.
    pub fn take_in(&mut self) {
        for which in 0..LOOPS {
            self.takes_in(which);
        }
    }

    /// Tells the loops, which take that in, of all that has changed. Returns whether there was room for it.
    pub fn tells_all(&mut self) -> bool {
        let are_told = self.publisher.publish_again(&self.hall);
        if are_told {
            self.take_in();
        }
        are_told
    }

    pub fn opens(&mut self, rt: &impl Abort, board: u16) {
        let text = format!(in self.alloc;
            "{{\"cmd\":\"open\",\"board\":\"b{board}\",\"start\":518}}"
        );
        self.says(text.expect(rt, "memory").as_str());
    }

    /// The move is played that goes on at this place.
    pub fn plays(&mut self, rt: &impl Abort, board: u16, place: u16) {
        let word = move_text(place);
        let text = format!(in self.alloc;
            "{{\"cmd\":\"submit\",\"board\":\"b{board}\",\"move\":\"{word}\"}}"
        );
        self.says(text.expect(rt, "memory").as_str());
        self.longest = self.longest.max(self.place(rt, board));
    }

    fn ends(&mut self, rt: &impl Abort, board: u16) {
        let how = text_at(endings(), self.dice.below(3) as usize);
        let text = format!(in self.alloc; "{{\"cmd\":\"end\",\"board\":\"b{board}\",{how}}}");
        self.says(text.expect(rt, "memory").as_str());
    }

    /// A text is said, and what it has changed is noted.
    fn says(&mut self, text: &str) {
        let owner = Owner {
            key: None,
            opener: 1,
        };
        let _ = self.hall.hear(&mut self.conn, &owner, text.as_bytes());
        for at in self.known..self.hall.len() {
            self.publisher.marks(at);
        }
        self.known = self.hall.len();
        for _ in 0..u32::MAX {
            let Some(at) = self.hall.take_changed() else {
                return;
            };
            self.publisher.marks(at);
        }
    }

    /// Whether each loop shows all boards as they are.
    pub fn shows_all(&self) -> bool {
        for table in self.tables.iter() {
            if table.len() != self.hall.len() || !self.is_shown_by(table) {
                return false;
            }
        }
        true
    }

    /// Whether a loop shows its boards as they are, and finds them.
    fn is_shown_by(&self, table: &BoardTable) -> bool {
        for at in 0..table.len() {
            let is_so = match (self.hall.board(at), table.board(at)) {
                (Some(shown), Some(copy)) => {
                    is_whole(&shown, copy) && table.find(&shown.name()) == Some(at)
                }
                _ => false,
            };
            if !is_so {
                return false;
            }
        }
        true
    }

    /// Whether each loop shows beginnings of the games.
    pub fn shows_beginnings(&mut self) -> bool {
        for at in 0..self.hall.len() {
            let Some(shown) = self.hall.board(at) else {
                return false;
            };
            self.moves.clear();
            if shown.moves_from(0, &mut self.moves).is_err() {
                return false;
            }
            for table in self.tables.iter() {
                if let Some(copy) = table.board(at) {
                    if !is_beginning(self.moves.as_slice(), &shown, copy) {
                        return false;
                    }
                }
            }
        }
        true
    }
}
