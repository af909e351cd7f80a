//! The steps that a board makes at its own table.

/// A step that a board made for itself. Steps that it makes for a follower whose part it carries are the follower's, and are not listed.
#[derive(Clone, Copy, PartialEq, Eq, Debug)]
pub enum BoardStep {
    /// The cursor of this slot was loaded.
    CursorLoaded(u64),
    /// An exchange of the cursor of this slot was tried. The closings say whether it closed the follower there.
    CursorExchanged(u64),
    /// The cursor of this slot, which was vacant, was stored as open.
    CursorOpened(u64),
    /// A move was stored after the log's last.
    MoveStored,
    /// The status was stored.
    StatusStored,
}
