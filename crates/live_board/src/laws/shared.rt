//! Laws of shared boards.

ghost use Rattle.std.specs.Prelude.{List};
ghost use Rattle.live_board.specs.Laws.{Always, AlwaysOfEach, Numbered, HasLegalGame, HasItsOutcome, HasStretch, IsNear, IsWithinClosing, EndStays};

/// What is true of a shared board after any list of events, whatever the interleaving of its threads was.
pub fn shared_laws()
    ensures start { Always Numbered }
    ensures log { Always HasLegalGame }
    ensures outcome { Always HasItsOutcome }
    ensures stretch { AlwaysOfEach HasStretch }
    ensures near { AlwaysOfEach IsNear }
    ensures closing { AlwaysOfEach IsWithinClosing }
    ensures end { EndStays }
{}
