//! Why a call or a step is refused.

ghost use Rattle.std.specs.Prelude.{◌≡◌};
ghost use Rattle.c960_game.specs.Refusal.{refusal_code, refusal_name};

/// Why a call or a step is refused. Each refusal has a number, 1 to 16 in the order below.
#[derive(Clone, Copy, PartialEq, Eq, Debug)]
pub enum Refusal {
    /// No board has this name.
    NoSuchBoard,
    /// A board has this name already.
    BoardExists,
    /// The number of the start is 960 or more.
    BadStart,
    /// There are as many boards as there may be.
    TooManyBoards,
    /// The game is over.
    GameOver,
    /// The move is not legal.
    Illegal,
    /// The log has as many moves as it may have.
    LogFull,
    /// The claimant does not have the move, or the claim has no ground.
    ClaimRefused,
    /// The spectator follows no board.
    NoSuchFollower,
    /// The spectator follows a board already.
    FollowerExists,
    /// The board has as many followers as it may have.
    TooManyFollowers,
    /// There was no memory.
    OutOfMemory,
    /// Another connection opened the board.
    NotYourBoard,
    /// The command does not fit what the connection does.
    WrongMode,
    /// The place is further back than a queue holds.
    TooFarBack,
    /// The log has not reached the place.
    NotYet,
}

impl Refusal {
    /// The number of the refusal, 1 to 16.
    pub fn code(&self) -> u64
        ensures { result ≡ refusal_code self.now }
    {
        match self {
            Refusal::NoSuchBoard => 1,
            Refusal::BoardExists => 2,
            Refusal::BadStart => 3,
            Refusal::TooManyBoards => 4,
            Refusal::GameOver => 5,
            Refusal::Illegal => 6,
            Refusal::LogFull => 7,
            Refusal::ClaimRefused => 8,
            Refusal::NoSuchFollower => 9,
            Refusal::FollowerExists => 10,
            Refusal::TooManyFollowers => 11,
            Refusal::OutOfMemory => 12,
            Refusal::NotYourBoard => 13,
            Refusal::WrongMode => 14,
            Refusal::TooFarBack => 15,
            Refusal::NotYet => 16,
        }
    }

    /// The name of the refusal, as used in texts.
    pub fn name(&self) -> &'static str
        ensures { result.now ≡ refusal_name self.now }
    {
        match self {
            Refusal::NoSuchBoard => "NoSuchBoard",
            Refusal::BoardExists => "BoardExists",
            Refusal::BadStart => "BadStart",
            Refusal::TooManyBoards => "TooManyBoards",
            Refusal::GameOver => "GameOver",
            Refusal::Illegal => "Illegal",
            Refusal::LogFull => "LogFull",
            Refusal::ClaimRefused => "ClaimRefused",
            Refusal::NoSuchFollower => "NoSuchFollower",
            Refusal::FollowerExists => "FollowerExists",
            Refusal::TooManyFollowers => "TooManyFollowers",
            Refusal::OutOfMemory => "OutOfMemory",
            Refusal::NotYourBoard => "NotYourBoard",
            Refusal::WrongMode => "WrongMode",
            Refusal::TooFarBack => "TooFarBack",
            Refusal::NotYet => "NotYet",
        }
    }
}
