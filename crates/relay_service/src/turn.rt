//! A turn of a service that is about to be noted. Only clauses read what it tells.

use crate::bytes::Bytes;
use relay_hall::{Hall, Handed, Key, Owner};
use std::snapshot::Snapshot;

/// What was done to the connection of a number, or what passed in the hall.
#[derive(Drop)]
pub(crate) enum NewTurn {
    Happens(u64, NewDeed),
    Comes(Snapshot<Key>),
    Goes(Snapshot<Owner>),
    Time(u64),
    Shuts,
    Ends,
}

/// What was done to a connection.
#[derive(Drop)]
pub(crate) enum NewDeed {
    Came(Bytes),
    Answered(bool, Moments),
    Failed(Moments),
    Wrote(Bytes),
    WasPinged(bool),
    WasClosed(bool, u16),
}

/// The hall before something was answered, what was handed out, and the hall then.
#[derive(Drop)]
pub(crate) struct Moments {
    pub before: Snapshot<Hall>,
    pub handed: Snapshot<Option<Handed>>,
    pub after: Snapshot<Hall>,
}
