//! What becomes of those that are refused memory.

use crate::tests::claims::claim;
use crate::tests::hall::answers::NO_MEMORY;
use crate::tests::hall::comparing::shows;
use crate::tests::hall::room::TWICE;
use crate::tests::service::frames::{TEXT, add, tell};
use crate::tests::service::people::{Course, Person};
use crate::tests::service::scene::{Scene, stage_of};
use std::alloc::AllocError;
use std::process::Abort;

impl Scene {
    /// Memory is refused, which happens once at the most.
    pub fn is_refused(&mut self, rt: &impl Abort) {
        self.refused = self.refused.wrapping_add(1);
        claim(rt, self.refused == 1, TWICE);
    }

    /// There was no memory for what a connection sent. Nothing has changed; or it was about to come to the hall, and is gone.
    pub fn is_not_heard(&mut self, rt: &impl Abort, person: &mut Person) {
        self.is_refused(rt);
        let is_gone = self.service.stage(person.number).is_none();
        if is_gone && person.course == Course::Comes {
            person.course = Course::Away;
        }
    }

    /// Whether a connection was answered that there is no memory for its command. Then nothing has changed.
    pub fn has_no_memory(&mut self, rt: &impl Abort, person: &mut Person) -> bool {
        let wants = self.wants_memory(person);
        if wants {
            self.is_refused(rt);
            tell(rt, &mut person.due, TEXT, NO_MEMORY.as_bytes());
        }
        wants
    }

    /// Whether what is due to a connection ends so.
    fn wants_memory(&self, person: &Person) -> bool {
        let output = self.service.output(person.number);
        output.ends_with(NO_MEMORY.as_bytes())
    }

    /// Whether the service answers something that a connection said; none if the connection is lost.
    pub fn answers(&mut self, rt: &impl Abort, person: &mut Person) -> Option<bool> {
        match self.service.answer(person.number) {
            Ok(some) => Some(some),
            Err(AllocError) => {
                if self.is_lost(rt, person) {
                    return None;
                }
                Some(self.service.answer(person.number).expect(rt, TWICE))
            }
        }
    }

    /// Whether a connection says no more that was refused memory. If it does, nothing has changed.
    pub fn is_lost(&mut self, rt: &impl Abort, person: &mut Person) -> bool {
        self.is_refused(rt);
        if self.service.stage(person.number) == stage_of(person.course) {
            return false;
        }
        if person.course == Course::Follows {
            self.leaves_board(person, "lost");
        } else {
            self.is_lost_while_it_asks(person);
        }
        let output = self.service.output(person.number);
        claim(rt, output.starts_with(person.due.as_slice()), "due before");
        person.due.clear();
        add(rt, &mut person.due, output);
        true
    }

    /// There was no memory for the answer to a command: the step was made, or none was. It was made if the hall does not show any more what
    /// the model has. If a follower was handed out, it has left its board again.
    fn is_lost_while_it_asks(&mut self, person: &mut Person) {
        let is_as_before = shows(self.service.hall(), &self.plain, &self.values);
        if let Some(command) = person.command {
            if !is_as_before {
                let _ = self.plain.step(person.speaker, command);
            }
        }
        person.course = Course::Closed;
        let _ = self.service.take_turned_away();
        let _ = self.plain.take_turned_away();
    }
}
