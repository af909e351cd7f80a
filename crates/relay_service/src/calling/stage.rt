//! How far a connection has come.

ghost use Rattle.std.specs.Prelude.{◌≡◌};
ghost use Rattle.relay_service.specs.Calling.Answering.{asks, stage_after};

/// What a connection does.
#[derive(Clone, Copy, Debug, PartialEq, Eq)]
pub enum Stage {
    /// Its request has yet to come, or some of it.
    Comes,
    /// It asks, and is answered.
    Asks,
    /// It follows a board: what was handed out is its own, and it asks no more.
    HandsOver,
    /// Its request was refused, it closed, broke the protocol, has sent as many messages as it may, was sent away, or could not be answered
    /// for want of memory. It says no more.
    Leaves,
}

impl Stage {
    /// The stage after an event: whether something was handed out for it, or it was the last one.
    pub(crate) fn after(has_handed: bool, is_last: bool) -> Stage
        ensures { result ≡ stage_after has_handed is_last }
    {
        if has_handed {
            Stage::HandsOver
        } else if is_last {
            Stage::Leaves
        } else {
            Stage::Asks
        }
    }

    /// Whether it is answered.
    pub(crate) fn asks(self) -> bool
        ensures { result ≡ asks self }
    {
        matches!(self, Stage::Asks)
    }
}
