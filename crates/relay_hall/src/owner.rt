//! Who owns a board.

ghost use Rattle.std.specs.Prelude.{◌≡◌, Some};
ghost use Rattle.relay_hall.specs.Keys.{is_owner};
ghost use Rattle.relay_hall.specs.Owning.{is_left_by};

use crate::key::Key;

/// A connection as an owner of boards: its key, if it has one, by which it owns them together with others, and its number.
#[derive(Clone, Copy)]
pub struct Owner {
    pub key: Option<Key>,
    pub opener: u64,
}

impl Owner {
    /// Whether what the other opened belongs to this one: by their keys.
    pub(crate) fn shares_with(&self, other: &Owner) -> bool
        ensures { result ≡ is_owner self.now.key other.now.key }
    {
        match (&self.key, &other.key) {
            (Some(mine), Some(theirs)) => mine.is_same(theirs),
            _ => false,
        }
    }

    /// Whether it has this key.
    pub(crate) fn has(&self, key: &Key) -> bool
        ensures { result ≡ is_owner (Some key.now) self.now.key }
    {
        match &self.key {
            Some(mine) => key.is_same(mine),
            None => false,
        }
    }

    /// Whether what it opened is left when the connection of this number goes: it has no key.
    pub(crate) fn is_left_by(&self, who: u64) -> bool
        ensures { result ≡ is_left_by who self.now }
    {
        self.key.is_none() && self.opener == who
    }
}
