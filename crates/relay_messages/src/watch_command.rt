//! What may be asked for on the watch port.

use relay_core::Step;

/// What a text asks for on the watch port.
#[derive(Clone, Copy, PartialEq, Eq, Debug)]
pub enum WatchCommand {
    /// To be sent all boards.
    Boards,
    /// A command of the main port.
    Step(Step),
}
