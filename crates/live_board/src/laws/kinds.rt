//! The kinds of atomic step, one law each: every step of the kind keeps what the table shows, and is its event.

ghost use Rattle.live_board.specs.Kinds.{AddsOne, ClosesACursor, JoinsParts, LoadsACursor, LoadsAMove, LoadsTheStatus, MakesTheTable, SplitsOff, SplitsOffNothing, StoresAMove, StoresAnOpenCursor, StoresTheLength, StoresTheOutcome, SwapsOut};

/// 1: the table is made, which is the event open.
pub fn making_the_table_is_open()
    ensures { MakesTheTable }
{}

/// 2: the board stores a vacant cursor as open, which is a follow.
pub fn storing_an_open_cursor_is_follow()
    ensures { StoresAnOpenCursor }
{}

/// 3: the board hands out a part, or makes a seat that carries none, which is silent.
pub fn splitting_off_is_silent()
    ensures part { SplitsOff }
    ensures nothing { SplitsOffNothing }
{}

/// 4: the board stores a move, which is silent.
pub fn storing_a_move_is_silent()
    ensures { StoresAMove }
{}

/// 5: the board stores the status, which is a submit, or an end.
pub fn storing_the_status_is_submit_or_end()
    ensures submit { StoresTheLength }
    ensures end { StoresTheOutcome }
{}

/// 6: a follower loads the status, which is silent.
pub fn loading_the_status_is_silent()
    ensures { LoadsTheStatus }
{}

/// 7: a follower loads a move, which is silent.
pub fn loading_a_move_is_silent()
    ensures { LoadsAMove }
{}

/// 8: a follower adds one to its cursor, which is a take.
pub fn adding_one_is_take()
    ensures { AddsOne }
{}

/// 9: the board loads a cursor, which is silent.
pub fn loading_a_cursor_is_silent()
    ensures { LoadsACursor }
{}

/// 10: the board exchanges a full open cursor for a closed one, which is a close if it succeeds, and otherwise silent.
pub fn closing_a_cursor_is_close_or_silent()
    ensures { ClosesACursor }
{}

/// 11: a follower swaps its cursor for a vacant one, which is a leave.
pub fn swapping_out_is_leave()
    ensures { SwapsOut }
{}

/// 12: a seat takes in the parts of another, which is silent.
pub fn joining_parts_is_silent()
    ensures { JoinsParts }
{}
