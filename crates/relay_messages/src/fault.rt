//! Why a text is not a command.

ghost use Rattle.std.specs.Prelude.{◌≡◌};
ghost use Rattle.relay_messages.specs.Faults.{message_fault_code, message_fault_name};

/// Why a text is not a command.
#[derive(Clone, Copy, PartialEq, Eq, Debug)]
pub enum MessageFault {
    /// There was no memory to read it.
    OutOfMemory,
    /// `serde_json` does not read the text: it is not JSON text in UTF-8, or it nests deeper than 127, has a number past
    /// the floats' range or half a surrogate pair.
    NotJson,
    /// The JSON value is not an object.
    NotObject,
    /// The member `cmd` is missing, is not a text, or names no command.
    UnknownCommand,
    /// The text has more than 1,024 bytes; or a key is missing, there is a key too many, or a value has another form than the
    /// command requires.
    BadField,
}

impl MessageFault {
    /// The number of the fault: 12, or 21 to 24.
    pub fn code(&self) -> u64
        ensures { result ≡ message_fault_code self.now }
    {
        match self {
            MessageFault::OutOfMemory => 12,
            MessageFault::NotJson => 21,
            MessageFault::NotObject => 22,
            MessageFault::UnknownCommand => 23,
            MessageFault::BadField => 24,
        }
    }

    /// The name of the fault, as used in answers.
    pub fn name(&self) -> &'static str
        ensures { result.now ≡ message_fault_name self.now }
    {
        match self {
            MessageFault::OutOfMemory => "OutOfMemory",
            MessageFault::NotJson => "NotJson",
            MessageFault::NotObject => "NotObject",
            MessageFault::UnknownCommand => "UnknownCommand",
            MessageFault::BadField => "BadField",
        }
    }
}
