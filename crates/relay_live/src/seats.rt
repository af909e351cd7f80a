//! The spectators who follow, and where. Contracts see them in the order of joining.

ghost use Rattle.std.specs.Prelude.{◌≡◌, ◌≤◌, ◌<◌, ℕ, nat_eq, is_some, option_map, slice_get, cond, true, IfNone, IfSome, IfErr, OnErr, OnOk, None, Some, ◌⊎◌, [], ◌∷◌, ◌++◌};
ghost use Rattle.std.specs.Map.{lookup, remove_entry, set_value};
ghost use Rattle.relay_live.specs.Live.{with_one_more};

use crate::seated::Seated;
use c960_game::Refusal;
use indexmap::IndexMap;
use indexmap::map::Entry;
use relay_core::{JoiningOrder, Spectator};
use std::alloc::Global;
use std::marker::Model;

/// Where each spectator follows. Contracts see a `SeatRecord`, with the spectators in the order of joining.
#[derive(Drop)]
pub(crate) struct Seats {
    /// The seats, in any order: when a spectator leaves, at most one other moves, wherever it stood.
    places: IndexMap<Spectator, Seated>,
    /// The order of joining, which only contracts read.
    order: JoiningOrder,
}

impl Model for Seats {
    ghost use Rattle.std.specs.HashMap.{spare};
    ghost use Rattle.relay_core.specs.Held.Order.{IsOrderOf, in_order};
    ghost use Rattle.relay_live.specs.Seats.{SeatRecord};

    ghost Value = { SeatRecord };

    ghost view = { λ s. record {
      entries = in_order s.order.spectators s.places.entries;
      places = s.places.entries;
      room = spare s.places;
    } };

    ghost invariant = { λ s. IsOrderOf s.order.spectators s.places.entries };
}

impl Seats {
    /// Nobody follows.
    pub(crate) fn new(alloc: Global) -> Seats
        ensures { result.entries ≡ [] }
    {
        Seats {
            places: IndexMap::new(alloc),
            order: JoiningOrder::new(),
        }
    }

    /// Whether a spectator follows.
    pub(crate) fn contains(&self, who: Spectator) -> bool
        ensures { result ≡ is_some (lookup (nat_eq who) self.now.entries) }
    {
        self.places.contains_key(&who)
    }

    /// Where a spectator follows, if it does, behind its index in the map.
    pub(crate) fn find(&self, who: Spectator) -> Option<(usize, &Seated)>
        ensures seated { option_map (λ p. p.1.now) result ≡ lookup (nat_eq who) self.now.entries }
        ensures place { IfSome result (λ p. slice_get self.now.places p.0 ≡ Some (who, p.1.now)) }
    {
        let (index, _, seated) = self.places.get_full(&who)?;
        Some((index, seated))
    }

    /// Counts one more move for the spectator at an index of the map.
    pub(crate) fn count_take(&mut self, index: usize)
        requires { IfSome (slice_get self.old.places index) (λ e. e.1.taken < 65535) }
        ensures counted { IfSome (slice_get self.old.places index) (λ e. self.new.entries ≡ set_value (nat_eq e.0) self.old.entries (with_one_more e.1)) }
        ensures nobody { slice_get self.old.places index ≡ None → self.new.entries ≡ self.old.entries }
        ensures room { self.new.room ≡ self.old.room }
    {
        if index >= self.places.len() {
            return;
        }
        let (_, seated) = self.places.pair_mut(index);
        seated.taken += 1;
    }

    /// Seats a spectator. Refused: `FollowerExists` if it follows a board already, and `OutOfMemory`. It is looked up once.
    pub(crate) fn insert(&mut self, who: Spectator, seated: Seated) -> Result<(), Refusal>
        ensures ok { OnOk result ((lookup (nat_eq who) self.old.entries ≡ None) × (self.new.entries ≡ self.old.entries ++ (who, seated) ∷ [])) }
        ensures ground { IfErr result (λ r. ((is_some (lookup (nat_eq who) self.old.entries) ≡ true) × (r ≡ Refusal.FollowerExists))
            ⊎ ((lookup (nat_eq who) self.old.entries ≡ None) × (r ≡ Refusal.OutOfMemory))) }
        ensures err { OnErr result (self.new.entries ≡ self.old.entries) }
    {
        let Ok(entry) = self.places.entry(who) else {
            return Err(Refusal::OutOfMemory);
        };
        match entry {
            Entry::Occupied(_) => return Err(Refusal::FollowerExists),
            Entry::Vacant(place) => {
                place.insert(seated);
            }
        }
        self.order = self.order.joined(&who);
        Ok(())
    }

    /// Removes a spectator: the last one of the map takes its place. The room does not shrink.
    pub(crate) fn remove(&mut self, who: Spectator) -> Option<Seated>
        ensures value { result ≡ lookup (nat_eq who) self.old.entries }
        ensures updates { (q : ℕ) → lookup (nat_eq q) self.new.entries
            ≡ cond (nat_eq who q) None (lookup (nat_eq q) self.old.entries) }
        ensures entries { self.new.entries ≡ remove_entry (nat_eq who) self.old.entries }
        ensures none { IfNone result (self.new.entries ≡ self.old.entries) }
        ensures room { self.old.room ≤ self.new.room }
    {
        let seated = self.places.swap_remove(&who)?;
        self.order = self.order.left(&who);
        Some(seated)
    }
}
