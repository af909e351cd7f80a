//! Why a text is not a move.

ghost use Rattle.std.specs.Prelude.{◌≡◌};
ghost use Rattle.c960_board.specs.MoveTexts.{move_fault_code, move_fault_name};

/// The first fault of a text that is not a move.
#[derive(Clone, Copy, PartialEq, Eq, Debug)]
pub enum MoveFault {
    /// The text does not have four or five bytes.
    Length,
    /// The first two bytes or the next two are not a square's text.
    Square,
    /// The fifth byte is none of `n`, `b`, `r` and `q`.
    Promotion,
}

impl MoveFault {
    /// The number of the fault, 1 to 3.
    pub fn code(&self) -> u64
        ensures { result ≡ move_fault_code self.now }
    {
        match self {
            MoveFault::Length => 1,
            MoveFault::Square => 2,
            MoveFault::Promotion => 3,
        }
    }

    /// The name of the fault.
    pub fn name(&self) -> &'static str
        ensures { result.now ≡ move_fault_name self.now }
    {
        match self {
            MoveFault::Length => "Length",
            MoveFault::Square => "Square",
            MoveFault::Promotion => "Promotion",
        }
    }
}
