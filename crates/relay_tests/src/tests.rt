//! The tests, a module for each layer that is tested: `frames_alone` of `relay_frames`, `messages` of `relay_messages`, `watching` of
//! `relay_watching`, `connections`, `late`, `live` and `pushing` of `relay_pushing`, `live_boards` of `live_board`, `relays` of both
//! relays, `engines` of `relay960_engines`. `again`, `chance`, `claims`, `deeds`, `fakes`, `values` and `relays::table` have
//! what several of them use.

mod again;
mod chance;
mod claims;
mod connections;
mod deeds;
mod engines;
mod fakes;
mod frames_alone;
mod late;
mod live;
mod live_boards;
mod messages;
mod pushing;
mod relays;
mod values;
mod watching;
