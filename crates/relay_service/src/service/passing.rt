//! What passes in the hall, and what it tells a driver.

ghost use Rattle.std.specs.Prelude.{◌≡◌, true};
ghost use Rattle.relay_hall.specs.Runs.{Ends, Shuts, Time};
ghost use Rattle.relay_service.specs.Calls.{Passes};

use crate::service::Service;
use crate::turn::NewTurn;

impl Service {
    /// The time is this, or was already later. Games of boards that have waited until then are ended as abandoned.
    pub fn tick(&mut self, millis: u64)
        ensures { Passes self.old (Time millis) self.new }
    {
        self.hall.tick(millis);
        self.turns = self.turns.and(&NewTurn::Time(millis));
    }

    /// Nobody can come back any more. Games of boards that wait are ended as abandoned.
    pub fn shut(&mut self)
        ensures { Passes self.old Shuts self.new }
    {
        self.hall.shut();
        self.turns = self.turns.and(&NewTurn::Shuts);
    }

    /// Ends, as abandoned, each game that is not over. From now on connections that follow are closed with 1001 behind the end of a game.
    pub fn end_all(&mut self)
        ensures { Passes (record self.old { is_ending = true }) Ends self.new }
    {
        self.is_ending = true;
        self.hall.end_all();
        self.turns = self.turns.and(&NewTurn::Ends);
    }

    /// The index of a board whose game has changed, in the order of opening: each once since it was last told.
    pub fn take_changed(&mut self) -> Option<usize>
        ensures { self.new ≡ self.old }
    {
        self.hall.take_changed()
    }

    /// Whether a connection that might follow was refused since the last such call.
    pub fn take_turned_away(&mut self) -> bool
        ensures { self.new ≡ self.old }
    {
        self.hall.take_turned_away()
    }

    /// Whoever serves the followers of the board of this index knows of no vacant slot, or does not know that any more.
    pub fn knows_full(&mut self, at: usize, is_full: bool)
        ensures { self.new ≡ self.old }
    {
        self.hall.knows_full(at, is_full);
    }

    /// From now on boards may be opened, or may not: then an open that would be accepted is refused for want of memory, as any may be.
    pub fn takes_boards(&mut self, takes: bool)
        ensures { self.new ≡ self.old }
    {
        self.hall.takes_boards(takes);
    }
}
