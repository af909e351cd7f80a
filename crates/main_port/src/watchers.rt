//! Those who watch the boards of the main port, in loops of their own.

use relay_hall::Hall;

/// Those who watch the boards. The loop tells them of each change, and waits for none of them.
pub trait Watchers {
    /// The board of this index, in the order of opening, was opened, or its game has changed. It is only noted here.
    fn changed(&mut self, at: usize);

    /// Answers are about to be written: those who watch are told before of what has changed, so that whoever has read an answer finds it at
    /// the watch port too. If boards are kept in a journal, all that the hall shows is on the disk. Nobody is woken yet.
    fn tell(&mut self, hall: &Hall);

    /// Those who were told anything are woken, and what could not be told before is told. Called at least once a turn, also if nothing has
    /// changed, unless the journal has failed. Returns whether all was told.
    fn wake(&mut self, hall: &Hall) -> bool;

    /// Serving ends, and all boards were ended, or a journal keeps them. Called once, if at all.
    fn has_ended(&mut self);
}
