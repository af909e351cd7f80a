//! Who has left.

ghost use Rattle.std.specs.Prelude.{◌≡◌, ◌&&◌, Some, true};
ghost use Rattle.relay_hall.specs.Keys.{is_owner};
ghost use Rattle.relay_hall.specs.Times.{has_waited};
ghost use Rattle.relay_hall.specs.Owning.{is_left_by};

use crate::holders::Holders;
use crate::key::Key;
use crate::owner::Owner;

/// A test of owners: whether they have left.
pub(crate) trait Leaver {
    ghost use Rattle.std.specs.Prelude.{Bool};
    ghost use Rattle.relay_hall.specs.declared.owner.Owner.{Owner};

    /// Whether this one has.
    ghost gone: { Self → Owner → Bool };

    /// Whether this one has.
    fn has_left(&self, owner: &Owner) -> bool
        ensures { result ≡ gone self.now owner.now };
}

/// The connection of this number, if it has no key.
#[derive(Drop)]
pub(crate) struct Keyless(pub(crate) u64);

impl Leaver for Keyless {
    ghost gone = { λ s owner. is_left_by s.0 owner };

    fn has_left(&self, owner: &Owner) -> bool {
        owner.is_left_by(self.0)
    }
}

/// All of them.
#[derive(Drop)]
pub(crate) struct Everybody;

impl Leaver for Everybody {
    ghost gone = { λ s owner. true };

    fn has_left(&self, _owner: &Owner) -> bool {
        true
    }
}

/// Those with this key, if it is left.
#[derive(Drop)]
pub(crate) struct KeyOwner {
    pub(crate) key: Key,
    pub(crate) is_left: bool,
}

impl Leaver for KeyOwner {
    ghost gone = { λ s owner. s.is_left && is_owner (Some s.key) owner.key };

    fn has_left(&self, owner: &Owner) -> bool {
        self.is_left && owner.has(&self.key)
    }
}

/// Those whose boards have waited until now; without a time, those whose boards wait.
#[derive(Drop)]
pub(crate) struct RunOut<'a> {
    pub(crate) holders: &'a Holders,
    pub(crate) now: Option<u64>,
}

impl Leaver for RunOut<'_> {
    ghost gone = { λ s owner. has_waited s.now s.holders.now.rows.items owner.key };

    fn has_left(&self, owner: &Owner) -> bool {
        match &owner.key {
            Some(key) => self.holders.has_run_out(key, self.now),
            None => false,
        }
    }
}
