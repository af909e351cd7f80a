//! The followers of all boards, by their spectators.

ghost use Rattle.std.specs.Prelude.{◌≡◌, ◌+◌, ◌-◌, ◌≤◌, ◌<◌, ◌^◌, ℕ, nat_eq, is_some, length, cond, option_map, count_by, IfNone, IfSome, OnOk, OnErr, None, [], ◌∷◌, ◌++◌};
ghost use Rattle.std.specs.Map.{lookup, remove_entry};
ghost use Rattle.relay_core.specs.BoardAnswers.{outcome_at};
ghost use Rattle.relay_core.specs.Held.Followers.{HasPlaces, boards_of, joining, popped, published};
ghost use Rattle.relay_core.specs.Name.{same_name};
ghost use Rattle.relay_core.specs.Replies.{taken_of};

use crate::boards::Boards;
use crate::follower::QueueFollower;
use crate::name::BoardName;
use crate::order::JoiningOrder;
use crate::reply::Taken;
use crate::step::Spectator;
use crate::tagged::TaggedName;
use crate::tags::TagSearch;
use c960_board::Move;
use c960_game::Game;
use indexmap::IndexMap;
use std::alloc::{AllocError, Global};
use std::marker::Model;

/// The spectators who follow a board. Contracts see a `HeldFollowers`, with the spectators in the order of joining.
#[derive(Drop)]
pub(crate) struct Followers {
    /// The followers, in any order: when a spectator leaves, at most one other moves, wherever it stood.
    seats: IndexMap<Spectator, QueueFollower>,
    /// The tag of each follower's board, at the follower's place in the map. Names of different tags differ, so what concerns one board
    /// passes over the followers of others by 4 bytes each, of the 80 that each has.
    tags: Vec<u32>,
    /// The order of joining, which only contracts read.
    order: JoiningOrder,
}

impl Model for Followers {
    ghost use Rattle.std.specs.Prelude.{◌-◌, min};
    ghost use Rattle.std.specs.HashMap.{spare};
    ghost use Rattle.std.specs.Vec.{vec_capacity, vec_len};
    ghost use Rattle.relay_core.specs.Inner.Maps.{HeldFollowers};
    ghost use Rattle.relay_core.specs.Held.Order.{in_order};
    ghost use Rattle.relay_core.specs.Inner.Seating.{IsSeating};

    ghost Value = { HeldFollowers };

    ghost view = { λ f. record {
      entries = in_order f.order.spectators f.seats.entries;
      room = min (spare f.seats) (vec_capacity f.tags - vec_len f.tags);
    } };

    ghost invariant = { λ f. IsSeating f.order.spectators f.tags.items f.seats.entries };
}

impl Followers {
    /// No followers.
    pub(crate) fn new(alloc: Global) -> Followers
        ensures { result.entries ≡ [] }
    {
        Followers {
            seats: IndexMap::new(alloc),
            tags: Vec::new(alloc),
            order: JoiningOrder::new(),
        }
    }

    /// Whether a spectator follows a board.
    pub(crate) fn contains(&self, who: Spectator) -> bool
        ensures { result ≡ is_some (lookup (nat_eq who) self.now.entries) }
    {
        self.seats.contains_key(&who)
    }

    /// How many spectators follow a board. The followers of other tags are passed over.
    pub(crate) fn count(&self, board: BoardName) -> usize
        ensures { result ≡ count_by (λ e. same_name board e.1.board) self.now.entries }
    {
        let tagged = TaggedName::new(board);
        let mut count = 0;
        let mut search = TagSearch::new();
        let mut i = search.next(&self.tags, tagged.tag());
        while i < self.seats.len() {
            if self.seats[i].follows(&tagged) {
                count += 1;
            }
            i = search.next(&self.tags, tagged.tag());
        }
        count
    }

    /// Offers a move made on a board at a place to each follower. It allocates nothing. Those of other tags, which it would not change, are
    /// passed over.
    pub(crate) fn publish(&mut self, board: BoardName, place: u16, m: Move)
        ensures entries { self.new.entries ≡ published board place m self.old.entries }
        ensures room { self.new.room ≡ self.old.room }
    {
        let tagged = TaggedName::new(board);
        let mut search = TagSearch::new();
        let mut i = search.next(&self.tags, tagged.tag());
        while i < self.tags.len() {
            let (_, follower) = self.seats.pair_mut(i);
            follower.offer(&tagged, place, m);
            i = search.next(&self.tags, tagged.tag());
        }
    }

    /// Makes a take for a spectator, if it follows one of these boards. It allocates nothing.
    #[tactic(auto, using(crate::proofs::BoardKept::boards_kept))]
    pub(crate) fn take(&mut self, who: Spectator, boards: &Boards) -> Option<Taken>
        requires { IfSome (lookup (nat_eq who) self.old.entries) HasPlaces }
        ensures answer { result ≡ option_map (λ f. taken_of (f.joined + f.taken) (outcome_at (lookup (same_name f.board) boards.now.entries)) f.cut f.queue)
            (lookup (nat_eq who) self.old.entries) }
        ensures updates { (q : ℕ) → lookup (nat_eq q) self.new.entries
            ≡ cond (nat_eq who q) (option_map popped (lookup (nat_eq who) self.old.entries))
            (lookup (nat_eq q) self.old.entries) }
        ensures none { IfNone result (self.new.entries ≡ self.old.entries) }
        ensures boards { boards_of self.new.entries ≡ boards_of self.old.entries }
        ensures room { self.new.room ≡ self.old.room }
    {
        let follower = self.seats.get_mut(&who)?;
        Some(follower.take(boards))
    }

    /// Makes a spectator that follows no board a follower of this one, from a place of its game's log on.
    pub(crate) fn admit(
        &mut self,
        alloc: Global,
        who: Spectator,
        board: BoardName,
        place: u16,
        game: &Game,
        capacity: u16,
    ) -> Result<(), AllocError>
        requires new { lookup (nat_eq who) self.old.entries ≡ None }
        requires few { length game.now.log - place ≤ capacity }
        ensures ok { OnOk result (self.new.entries ≡ self.old.entries ++ (who, joining board place game.now.log capacity) ∷ []) }
        ensures err { OnErr result (self.new.entries ≡ self.old.entries) }
    {
        let follower = QueueFollower::new(alloc, board, place, game, capacity)?;
        let tag = follower.tag();
        // Its room comes first: once the follower is in, nothing can fail.
        self.tags.reserve(1)?;
        self.seats.insert(who, follower)?;
        self.tags.push_reserved(tag);
        self.order = self.order.joined(&who);
        Ok(())
    }

    /// Removes a spectator: the last one of the map takes its place, and so does the last tag. The room does not shrink: the map's contract
    /// says no more about a removal.
    pub(crate) fn remove(&mut self, who: Spectator) -> Option<QueueFollower>
        ensures value { result ≡ lookup (nat_eq who) self.old.entries }
        ensures updates { (q : ℕ) → lookup (nat_eq q) self.new.entries
            ≡ cond (nat_eq who q) None (lookup (nat_eq q) self.old.entries) }
        ensures entries { self.new.entries ≡ remove_entry (nat_eq who) self.old.entries }
        ensures none { IfNone result (self.new.entries ≡ self.old.entries) }
        ensures room { self.old.room ≤ self.new.room }
    {
        let (place, _, follower) = self.seats.swap_remove_full(&who)?;
        self.tags.swap_remove(place);
        self.order = self.order.left(&who);
        Some(follower)
    }
}
