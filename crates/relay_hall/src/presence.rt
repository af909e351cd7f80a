//! Whether connections with a key exist, and how that changes when one comes or goes.

ghost use Rattle.std.specs.Prelude.{◌≡◌, ◌↔◌, true};
ghost use Rattle.relay_hall.specs.Holders.{is_due};
ghost use Rattle.relay_hall.specs.Holding.{IsDue, earlier, with_one_less, with_one_more};

/// Whether connections with a key exist.
#[derive(Clone, Copy)]
pub(crate) enum Presence {
    /// This many do.
    Here(u32),
    /// None does. The boards of the key are ended at this time, unless one comes back before.
    Waits(u64),
}

impl Presence {
    /// One more comes. None if there are already as many as can be counted.
    pub(crate) fn with_one_more(self) -> Option<Presence>
        ensures { result ≡ with_one_more self }
    {
        match self {
            Presence::Here(present) => {
                if present < u32::MAX {
                    Some(Presence::Here(present + 1))
                } else {
                    None
                }
            }
            Presence::Waits(_) => Some(Presence::Here(1)),
        }
    }

    /// One goes. If it was the last, the boards wait until the given time; if they do not wait, nothing is left of the presence.
    pub(crate) fn with_one_less(self, until: Option<u64>) -> Option<Presence>
        ensures { result ≡ with_one_less self until }
    {
        if let Presence::Here(present) = self {
            if present > 1 {
                return Some(Presence::Here(present - 1));
            }
        }
        match until {
            Some(until) => Some(Presence::Waits(until)),
            None => None,
        }
    }

    /// Whether the boards have waited until now; without a time, whether they wait.
    pub(crate) fn is_due(&self, now: Option<u64>) -> bool
        ensures due { (result ≡ true) ↔ IsDue now self.now }
        ensures value { result ≡ is_due now self.now }
    {
        match self {
            Presence::Here(_) => false,
            Presence::Waits(until) => match now {
                Some(now) => *until <= now,
                None => true,
            },
        }
    }

    /// The earlier of a time and the time until which the boards wait.
    pub(crate) fn earlier(&self, next: Option<u64>) -> Option<u64>
        ensures { result ≡ earlier self.now next }
    {
        let Presence::Waits(until) = self else {
            return next;
        };
        match next {
            Some(next) if next <= *until => Some(next),
            _ => Some(*until),
        }
    }
}
