//! The grounds on which an open and a follow are refused, in their order. Each relay and a server's registry call these functions, so that
//! the order is written once. Lack of memory is not a ground: it comes after all of them.

ghost use Rattle.std.specs.Prelude.{◌≡◌, ◌↔◌, ◌⊎◌, ◌+◌, ◌<◌, ◌≤◌, Err, IfErr, IfOk};
ghost use Rattle.relay_core.specs.Refusals.{first_refusal, follow_grounds, open_grounds, place_grounds};

use c960_board::STARTS;
use c960_game::Refusal;

/// Whether a board may be opened with the game of this start. It depends on whether the name is taken, on how many boards there are, and
/// on how many there may be. Refused, in this order: `BoardExists`, `BadStart`, `TooManyBoards`.
pub fn may_open(is_named: bool, start: u16, boards: usize, most: u16) -> Result<(), Refusal>
    ensures { result ≡ first_refusal (open_grounds is_named start boards most) }
{
    if is_named {
        return Err(Refusal::BoardExists);
    }
    if start >= STARTS {
        return Err(Refusal::BadStart);
    }
    if boards >= usize::from(most) {
        return Err(Refusal::TooManyBoards);
    }
    Ok(())
}

/// Whether a follower may join at this place of a log of this length, if a queue holds `capacity` moves. Refused, in this order: `NotYet`,
/// `TooFarBack`.
pub fn may_join_at(len: u16, place: u16, capacity: u16) -> Result<(), Refusal>
    ensures value { result ≡ first_refusal (place_grounds len place capacity) }
    ensures not_yet { (result ≡ Err Refusal.NotYet) ↔ (len < place) }
    ensures too_far_back { (result ≡ Err Refusal.TooFarBack) ↔ ((place ≤ len) × (place + capacity < len)) }
    ensures refusals { IfErr result (λ r. (r ≡ Refusal.NotYet) ⊎ (r ≡ Refusal.TooFarBack)) }
    ensures near { IfOk result (λ done. (place ≤ len) × (len ≤ place + capacity)) }
{
    if len < place {
        return Err(Refusal::NotYet);
    }
    if len - place > capacity {
        return Err(Refusal::TooFarBack);
    }
    Ok(())
}

/// Whether a spectator may follow a board. It depends on whether it follows one already, on the log's length, on the place to join at, on
/// how many moves a queue holds, and on whether the board has all the followers it may have. Refused, in this order: `FollowerExists`,
/// `NotYet`, `TooFarBack`, `TooManyFollowers`.
pub fn may_follow(
    follows: bool,
    len: u16,
    place: u16,
    capacity: u16,
    is_full: bool,
) -> Result<(), Refusal>
    ensures { result ≡ first_refusal (follow_grounds follows len place capacity is_full) }
{
    if follows {
        return Err(Refusal::FollowerExists);
    }
    may_join_at(len, place, capacity)?;
    if is_full {
        return Err(Refusal::TooManyFollowers);
    }
    Ok(())
}
