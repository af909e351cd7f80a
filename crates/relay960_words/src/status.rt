//! The exit status of the program.

ghost use Rattle.std.specs.Prelude.{◌≡◌};
ghost use Rattle.relay960_words.specs.Statuses.{status_code};

/// The exit status of the program.
#[derive(Clone, Copy)]
pub enum Status {
    /// What was asked for is done; refused and faulty lines of `play` and `script` do not matter for this.
    Done,
    /// `start`, `moves` or `play` refused its argument.
    Refused,
    /// The arguments are faulty or ask for help.
    FaultyWords,
    /// A device failed, or the input was too long.
    DeviceFailed,
    /// There was no memory.
    OutOfMemory,
}

impl Status {
    /// The exit code, 0 to 4 in the order above.
    pub fn code(&self) -> u8
        ensures { result ≡ status_code self.now }
    {
        match self {
            Status::Done => 0,
            Status::Refused => 1,
            Status::FaultyWords => 2,
            Status::DeviceFailed => 3,
            Status::OutOfMemory => 4,
        }
    }
}
