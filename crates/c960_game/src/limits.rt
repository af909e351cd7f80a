//! The limits of a relay.

ghost use Rattle.std.specs.Prelude.{◌≡◌, ◌↔◌, IsSome, IfSome};
ghost use Rattle.c960_game.specs.Limits.{AreLimits, LimitNumbers};

use std::marker::Model;

/// The most boards that a relay may have.
pub const MOST_BOARDS: u16 = 256;

/// The most followers that a board may have.
pub const MOST_FOLLOWERS: u16 = 1024;

/// The most moves that a follower's queue may hold.
pub const MOST_CAPACITY: u16 = 1024;

/// The most plies that a game may have.
pub const MOST_PLIES: u16 = 16384;

/// The limits of a relay. Contracts see their four numbers.
#[derive(Clone, Copy, PartialEq, Eq, Debug)]
pub struct Limits {
    boards: u16,
    followers: u16,
    capacity: u16,
    plies: u16,
}

impl Model for Limits {
    ghost use Rattle.c960_game.specs.Limits.{AreLimits, LimitNumbers};

    ghost Value = { LimitNumbers };

    ghost view = { λ l. record { boards = l.boards; followers = l.followers; capacity = l.capacity; plies = l.plies } };

    ghost invariant = { λ l. AreLimits (record { boards = l.boards; followers = l.followers; capacity = l.capacity; plies = l.plies }) };

    ghost inverse = { λ v. record { boards = v.boards; followers = v.followers; capacity = v.capacity; plies = v.plies } };
}

impl Limits {
    /// The limits, or None exactly if a number is outside its range: 1 to 256 boards, 1 to 1,024 followers a board, queues of 1 to
    /// 1,024 moves, 1 to 16,384 plies a game.
    pub fn new(boards: u16, followers: u16, capacity: u16, plies: u16) -> Option<Limits>
        ensures some { IsSome result ↔ AreLimits (record { boards = boards; followers = followers; capacity = capacity; plies = plies }) }
        ensures value { IfSome result (λ l. l ≡ record { boards = boards; followers = followers; capacity = capacity; plies = plies }) }
    {
        let fit = (1..=MOST_BOARDS).contains(&boards)
            && (1..=MOST_FOLLOWERS).contains(&followers)
            && (1..=MOST_CAPACITY).contains(&capacity)
            && (1..=MOST_PLIES).contains(&plies);
        if fit {
            Some(Limits {
                boards,
                followers,
                capacity,
                plies,
            })
        } else {
            None
        }
    }

    /// How many boards there may be, 1 to 256.
    pub fn boards(&self) -> u16
        ensures value { result ≡ self.now.boards }
        ensures valid { AreLimits self.now }
    {
        self.boards
    }

    /// How many followers a board may have, 1 to 1,024.
    pub fn followers(&self) -> u16
        ensures value { result ≡ self.now.followers }
        ensures valid { AreLimits self.now }
    {
        self.followers
    }

    /// How many moves a follower's queue holds, 1 to 1,024.
    pub fn capacity(&self) -> u16
        ensures value { result ≡ self.now.capacity }
        ensures valid { AreLimits self.now }
    {
        self.capacity
    }

    /// How many plies a game may have, 1 to 16,384.
    pub fn plies(&self) -> u16
        ensures value { result ≡ self.now.plies }
        ensures valid { AreLimits self.now }
    {
        self.plies
    }
}
