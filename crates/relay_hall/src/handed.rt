//! A follower that was handed out.

use live_board::Follower;
use relay_core::{BoardName, Taken};
use relay_pushing::Source;

/// A follower, and the name of its board. As a source it gives what its follower takes, without a lock.
#[derive(Drop)]
pub struct Handed {
    pub board: BoardName,
    pub follower: Follower,
}

impl Source for Handed {
    ghost use Rattle.relay_hall.specs.Taking.{Gives};

    ghost gives = { λ old taken new. Gives old taken new };

    fn take(&mut self) -> Taken {
        self.follower.take()
    }
}
