//! Why a text is not a position's.

ghost use Rattle.std.specs.Prelude.{◌≡◌};
ghost use Rattle.c960_board.specs.Fen.Faults.{fen_fault_code, fen_fault_name};

/// The first fault of a text that is not a position's.
#[derive(Clone, Copy, PartialEq, Eq, Debug)]
pub enum FenFault {
    /// The text does not have exactly five spaces, or a field is empty.
    Fields,
    /// The first field is not a placement, or a side does not have exactly one king, or a pawn is on rank 1 or 8.
    Placement,
    /// The second field is not `w` or `b`.
    Turn,
    /// The third field is neither `-` nor one to four rights, or a right is repeated, has no king or rook of its colour in
    /// place, or is the second on one side of its king.
    Castling,
    /// The fourth field is neither `-` nor a target that fits.
    EnPassant,
    /// One of the last two fields is not a number or is out of range.
    Counters,
}

impl FenFault {
    /// The number of the fault, 1 to 6.
    pub fn code(&self) -> u64
        ensures { result ≡ fen_fault_code self.now }
    {
        match self {
            FenFault::Fields => 1,
            FenFault::Placement => 2,
            FenFault::Turn => 3,
            FenFault::Castling => 4,
            FenFault::EnPassant => 5,
            FenFault::Counters => 6,
        }
    }

    /// The name of the fault.
    pub fn name(&self) -> &'static str
        ensures { result.now ≡ fen_fault_name self.now }
    {
        match self {
            FenFault::Fields => "Fields",
            FenFault::Placement => "Placement",
            FenFault::Turn => "Turn",
            FenFault::Castling => "Castling",
            FenFault::EnPassant => "EnPassant",
            FenFault::Counters => "Counters",
        }
    }
}
