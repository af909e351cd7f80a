//! A service among its connections, and the hall's model beside it. What connections send comes in pieces of any size, and what is due to
//! them is taken so. At most one allocation is refused; whoever was refused finds nothing changed and asks again, or is lost.

mod following;
mod refused;

use crate::tests::chance::Dice;
use crate::tests::claims::claim;
use crate::tests::hall::command::Command;
use crate::tests::hall::comparing::{is_quiet, shows, tells, was_changed};
use crate::tests::hall::plain::{Answer, BOARDS, CAPACITY, FOLLOWERS, KEYS, PLIES, Plain};
use crate::tests::hall::room::TWICE;
use crate::tests::hall::seen::Seen;
use crate::tests::hall::values::{Values, key_text, text_of};
use crate::tests::service::frames::{
    ACCEPTED, BEHIND_TARGET, PING, TEXT, add, ask_text, tell, tell_close,
};
use crate::tests::service::people::{Course, PEOPLE, Person, Saying, remove_first};
use c960_board::Move;
use c960_game::Limits;
use relay_frames::Code;
use relay_hall::Owner;
use relay_service::{Service, Stage};
use std::alloc::{AllocError, Global};
use std::process::Abort;

/// After so many events more connections go than come, and after some more it is the other way round again.
const EBB: u32 = 900;

const FLOOD: u32 = 1500;

/// Codes by which a connection is closed (RFC 6455, section 7.4.1).
static CODES: [u16; 4] = [1000, 1001, 1008, 1013];

fn codes() -> &'static [u16] {
    &CODES
}

/// A service and its model.
#[derive(Drop)]
pub struct Scene {
    dice: Dice,
    service: Service,
    pub plain: Plain,
    values: Values,
    moves: Vec<Move>,
    events: u32,
    /// Whether all games were ended.
    is_ending: bool,
    /// How many connections there have been.
    numbers: u64,
    /// How often memory was refused.
    pub refused: u32,
}

/// A service.
fn made(rt: &impl Abort, alloc: Global, grace: u64) -> Service {
    let limits = Limits::new(BOARDS, FOLLOWERS, CAPACITY, PLIES).expect(rt, "limits");
    match Service::new(alloc, limits, grace, true) {
        Ok(service) => service,
        Err(AllocError) => Service::new(alloc, limits, grace, true).expect(rt, TWICE),
    }
}

/// What a service shows of a connection that does this.
fn stage_of(course: Course) -> Option<Stage> {
    match course {
        Course::Away => None,
        Course::Comes => Some(Stage::Comes),
        Course::Asks => Some(Stage::Asks),
        Course::Follows => Some(Stage::Follows),
        Course::Closed | Course::Left | Course::Through => Some(Stage::Leaves),
    }
}

impl Scene {
    pub fn new(rt: &impl Abort, alloc: Global, grace: u64, seed: u32) -> Scene {
        Scene {
            dice: Dice { seed },
            service: made(rt, alloc, grace),
            plain: Plain::new(rt, alloc, grace),
            values: Values::new(rt, alloc),
            moves: Vec::new(alloc),
            events: 0,
            is_ending: false,
            numbers: 0,
            refused: 0,
        }
    }

    /// One event.
    pub fn happens(&mut self, rt: &impl Abort, people: &mut [Person]) {
        self.events = self.events.wrapping_add(1);
        match self.dice.below(80) {
            0..=2 => self.passes(),
            3 => self.ends(),
            4 => self.knows_full(),
            _ => self.somebody(rt, people),
        }
        self.assert_shown(rt);
    }

    /// Notes what has occurred.
    pub fn notes(&self, seen: &mut Seen) {
        seen.note_all(&self.plain.seen);
    }

    /// The service shows and tells what the model has.
    fn assert_shown(&mut self, rt: &impl Abort) {
        let is_shown = shows(self.service.hall(), &self.plain, &self.values);
        claim(rt, is_shown, "shows");
        claim(rt, self.tells_changes(), "changes");
        claim(rt, self.tells_moves(rt), "moves");
        let has_turned_away = self.plain.take_turned_away();
        let is_told = self.service.take_turned_away() == has_turned_away;
        claim(rt, is_told, "turned away");
    }

    /// Time goes on, or is told late.
    fn passes(&mut self) {
        let later = self.plain.time.wrapping_add(u64::from(self.dice.below(30)));
        let now = later.saturating_sub(3);
        self.service.tick(now);
        self.plain.tick(now);
    }

    /// All games are ended, or nobody can come back any more, both rarely.
    fn ends(&mut self) {
        match self.dice.below(60) {
            0 => {
                self.service.end_all();
                self.plain.end_all();
                self.is_ending = true;
            }
            1..=3 => {
                self.service.shut();
                self.plain.shut();
            }
            _ => {}
        }
    }

    /// A board is known to have no vacant slot, or is not any more; or that is said of a board that cannot be.
    fn knows_full(&mut self) {
        let at = self.dice.below(u32::from(BOARDS).wrapping_add(4)) as usize;
        let is_full = self.dice.below(4) == 0;
        if self.plain.knows_full(at, is_full) {
            self.service.knows_full(at, is_full);
        }
    }

    /// Whether the service tells once of each board of the model that has changed, and of no other.
    fn tells_changes(&mut self) -> bool {
        for _ in 0..=BOARDS {
            match self.service.take_changed() {
                Some(at) if was_changed(&mut self.plain, at) => {}
                Some(_) => return false,
                None => return is_quiet(&self.plain),
            }
        }
        false
    }

    /// Whether any board tells its moves from any place on. If it is refused, it is asked again.
    fn tells_moves(&mut self, rt: &impl Abort) -> bool {
        let at = self.dice.below(u32::from(BOARDS)) as usize;
        let from = self.dice.few(12);
        match self.told(at, from) {
            Ok(is_told) => is_told,
            Err(AllocError) => {
                self.is_refused(rt);
                self.told(at, from).expect(rt, TWICE)
            }
        }
    }

    /// Whether the board of this index tells its moves from this place on, if there is one.
    fn told(&mut self, at: usize, from: u16) -> Result<bool, AllocError> {
        match (self.plain.rows.get(at), self.service.hall().board(at)) {
            (Some(row), Some(shown)) => tells(&shown, row, from, &mut self.moves),
            _ => Ok(true),
        }
    }

    /// Whether more go than come.
    fn ebbs(&self) -> bool {
        self.events >= EBB && self.events < FLOOD
    }

    /// A connection comes, or one that is there acts.
    fn somebody(&mut self, rt: &impl Abort, people: &mut [Person]) {
        let who = self.dice.below(PEOPLE) as usize;
        let Some(person) = people.get_mut(who) else {
            panic!(rt; "nobody");
        };
        if person.course != Course::Away {
            self.acts(rt, person);
            self.assert_due(rt, person);
        } else if !self.ebbs() || self.dice.below(12) == 0 {
            self.comes(rt, person);
        }
    }

    /// A connection comes, whose request names one of the keys or none. Nobody had its number before.
    fn comes(&mut self, rt: &impl Abort, person: &mut Person) {
        let Ok(number) = self.service.connect() else {
            self.is_refused(rt);
            return;
        };
        claim(rt, number == self.numbers, "a new number");
        self.numbers = number.wrapping_add(1);
        let key = (self.dice.below(12) as usize).min(KEYS);
        person.begins(number, key);
        add(rt, &mut person.unsent, b"GET /?key=");
        add(rt, &mut person.unsent, key_text(key).as_bytes());
        add(rt, &mut person.unsent, BEHIND_TARGET);
    }

    /// What is due to a connection is what the model says, and nothing else; and it does what the model says.
    fn assert_due(&self, rt: &impl Abort, person: &Person) {
        let is_due = self.service.output(person.number) == person.due.as_slice();
        claim(rt, is_due, "due");
        let is_so = self.service.stage(person.number) == stage_of(person.course);
        claim(rt, is_so && self.is_at(person), "what it does");
        claim(rt, self.owns_as_told(person), "whether it owns a board");
    }

    /// Whether a connection that asks owns a board exactly if it does in the model.
    fn owns_as_told(&self, person: &Person) -> bool {
        person.course != Course::Asks
            || self.service.is_owner(person.number) == self.plain.has_any(person.speaker)
    }

    /// A connection sends something, takes something, is sent something unasked, or goes.
    fn acts(&mut self, rt: &impl Abort, person: &mut Person) {
        let goes = self.dice.below(40) < if self.ebbs() { 12 } else { 1 };
        if goes {
            self.goes(rt, person);
            return;
        }
        match self.dice.below(40) {
            0..=21 => self.sends(rt, person),
            22..=25 => self.is_pushed(rt, person),
            26..=36 => self.takes(person),
            37..=38 => self.is_pinged(rt, person),
            _ => self.is_closed_or_leaves(rt, person),
        }
    }

    // ---- What it sends.

    /// A connection sends a piece of what it has yet to send. One that has sent all says something new.
    fn sends(&mut self, rt: &impl Abort, person: &mut Person) {
        if person.unsent.is_empty() {
            self.begins(rt, person);
        }
        let n = self.size(person).min(person.unsent.len());
        let (piece, _) = person.unsent.split_at(n.min(person.unsent.len()));
        if self.service.receive(person.number, piece).is_err() {
            self.is_not_heard(rt, person);
            return;
        }
        let is_last = n > 0 && n == person.unsent.len();
        remove_first(&mut person.unsent, n);
        self.is_answered(rt, person, is_last);
    }

    /// A connection says something new, if it asks or follows.
    fn begins(&mut self, rt: &impl Abort, person: &mut Person) {
        if person.course == Course::Asks {
            let command = Command::drawn(&mut self.dice, &self.plain, person.speaker);
            self.asks(rt, person, command);
        } else if person.course == Course::Follows {
            self.begins_to_say(rt, person);
        }
    }

    /// A connection is going to send this command.
    fn asks(&self, rt: &impl Abort, person: &mut Person, command: Command) {
        person.unsent.clear();
        ask_text(rt, &mut person.unsent, &command.pieces());
        person.command = Some(command);
    }

    /// How many bytes the next piece has: few, or as many as there are. A breach comes whole, since its first byte is one.
    fn size(&mut self, person: &Person) -> usize {
        let few = (self.dice.below(90) as usize).wrapping_add(1);
        let is_whole = self.dice.below(3) == 0 || person.saying == Some(Saying::Breach);
        if is_whole { usize::MAX } else { few }
    }

    /// What a connection sent is answered if it was the last piece of a command, or of what it says that follows, and otherwise nothing is.
    fn is_answered(&mut self, rt: &impl Abort, person: &mut Person, is_last: bool) {
        let Some(some) = self.answers(rt, person) else {
            return;
        };
        let asks = person.course == Course::Asks;
        let speaks = asks || person.course == Course::Follows;
        claim(rt, some == (is_last && speaks), "answered");
        let asks_on = asks && self.service.stage(person.number) == Some(Stage::Asks);
        let has_said = self.service.take_said(person.number);
        claim(rt, has_said == (is_last && asks_on), "said");
        let is_midway = self.service.is_midway(person.number);
        claim(rt, is_midway == !is_last || !speaks, "in the middle");
        if is_last {
            self.is_heard(rt, person);
        }
    }

    /// What a connection has said is met.
    fn is_heard(&mut self, rt: &impl Abort, person: &mut Person) {
        match (person.course, person.command) {
            (Course::Asks, Some(command)) => self.steps(rt, person, command),
            (Course::Follows, _) => self.is_served(rt, person),
            (Course::Comes, _) => self.is_accepted(rt, person),
            _ => {}
        }
    }

    /// The request of a connection is accepted: it has come to the hall.
    fn is_accepted(&mut self, rt: &impl Abort, person: &mut Person) {
        add(rt, &mut person.due, ACCEPTED);
        person.course = Course::Asks;
        self.plain.arrive(person.speaker.key);
    }

    /// The model makes the step of a connection, to which its answer is due; unless it was refused for want of memory, and asks again.
    fn steps(&mut self, rt: &impl Abort, person: &mut Person, command: Command) {
        if self.has_no_memory(rt, person) {
            self.asks(rt, person, command);
            return;
        }
        let answer = self.plain.step(person.speaker, command);
        person.command = None;
        tell(rt, &mut person.due, TEXT, text_of(answer).as_bytes());
        if let Answer::Joined(board, place) = answer {
            person.follows(board, place);
        }
    }

    // ---- What it takes, and is sent unasked.

    /// A connection takes so many of the bytes that are due, or all.
    fn takes(&mut self, person: &mut Person) {
        let n = self.dice.below(300) as usize;
        self.service.sent(person.number, n);
        remove_first(&mut person.due, n);
    }

    /// A connection is pinged, which does nothing to one that neither asks nor follows.
    fn is_pinged(&mut self, rt: &impl Abort, person: &mut Person) {
        if self.service.ping(person.number).is_err() {
            self.is_refused(rt);
        } else if matches!(person.course, Course::Asks | Course::Follows) {
            tell(rt, &mut person.due, PING, b"");
        }
    }

    /// A connection is closed, or it goes from the hall.
    fn is_closed_or_leaves(&mut self, rt: &impl Abort, person: &mut Person) {
        if self.dice.below(2) == 0 {
            let code = codes().get(self.dice.below(4) as usize);
            self.is_closed(rt, person, code.copied().unwrap_or(1001));
        } else {
            self.service.leave(person.number);
            self.has_left(person);
            person.course = Course::Left;
        }
    }

    /// A connection is closed with this code, which does nothing to one that neither asks nor follows.
    fn is_closed(&mut self, rt: &impl Abort, person: &mut Person, number: u16) {
        let code = Code::new(number).expect(rt, "a code");
        if self.service.close(person.number, code).is_err() {
            self.is_refused(rt);
            return;
        }
        match person.course {
            Course::Asks => {
                tell_close(rt, &mut person.due, number);
                person.course = Course::Closed;
            }
            Course::Follows => self.is_through(rt, person, number, "closed"),
            _ => {}
        }
    }

    // ---- How it goes.

    /// The model's hall learns that a connection has gone, if it had come. One that follows leaves its board.
    fn has_left(&mut self, person: &mut Person) {
        let is_in_the_hall = person.is_in_the_hall();
        if person.course == Course::Follows {
            self.leaves_board(person, "gone");
        }
        if is_in_the_hall {
            self.plain.leave(person.speaker);
        }
    }

    /// A connection goes.
    fn goes(&mut self, rt: &impl Abort, person: &mut Person) {
        let who = self.service.owner(person.number);
        self.service.disconnect(person.number);
        self.has_left(person);
        person.course = Course::Away;
        person.due.clear();
        claim(rt, self.service.stage(person.number).is_none(), "gone");
        claim(rt, self.waits_as_told(who, person), "waits");
    }

    /// Whether the boards of who went wait exactly if they do in the model.
    fn waits_as_told(&self, who: Option<Owner>, person: &Person) -> bool {
        match who {
            Some(Owner { key: Some(key), .. }) => {
                self.service.hall().waits(&key) == self.plain.waits(person.speaker.key)
            }
            _ => true,
        }
    }
}
