//! Bells, which notify followers that there may be more to take.

ghost use Rattle.std.specs.Prelude.{◌≢◌};

/// What is rung when there may be more to take. It counts its rings, wrapping. It is shared with others who ring it and wait for it, so no
/// contract promises its count.
pub trait Bell {
    /// How often it was rung.
    fn count(&self) -> u64;

    /// Rings it: the count rises by 1. A wait that begins later is over at once. A bell may leave those who already wait asleep until it is
    /// told to wake them, so that one wake serves several rings.
    fn ring(&self);

    /// Waits until the count is not `heard`, and returns the count.
    fn wait(&self, heard: u64) -> u64
        ensures { result ≢ heard };
}
