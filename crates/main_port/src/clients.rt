//! All connections of the loop: how they come and go, and what is due for which.

ghost use Rattle.std.specs.Prelude.{◌≡◌, None};
ghost use Rattle.main_port.specs.Others.{OthersStay, client_in};

mod timing;
pub(crate) mod turns;

use crate::client::{Client, Ends};
use crate::common::Common;
use crate::watchers::Watchers;
use indexmap::IndexMap;
use mio::net::TcpStream;
use mio::{Interest, Registry, Token};
use server_loop::Rank;
use std::io;
use std::sync::Wait;
use std::time::Clock;

/// All connections, with what they share. Each is known by the number that the service has for it, which is also the token of its socket.
#[derive(Drop)]
pub(crate) struct Clients<'a, R, W> {
    pub(crate) common: Common<'a, R, W>,
    pub(crate) each: IndexMap<u64, Client>,
    /// Those that were answered, and whose answers have yet to be sent.
    unsent: Vec<u64>,
    /// When they were last looked at, in milliseconds.
    looked_at: u64,
    /// How many of them have yet to be looked at since then.
    unlooked: usize,
}

impl<'a, R: Wait + Clock, W: Watchers> Clients<'a, R, W> {
    /// No connections yet.
    pub(crate) fn new(common: Common<'a, R, W>) -> Clients<'a, R, W>
        ensures { result.common ≡ common.entry }
    {
        Clients {
            each: IndexMap::new(common.alloc),
            unsent: Vec::new(common.alloc),
            common,
            looked_at: 0,
            unlooked: 0,
        }
    }

    /// Why the journal failed, if it has, and those who watch. All connections go, without a frame.
    pub(crate) fn end(self) -> (Option<io::Error>, W)
        ensures { result.0 ≡ self.entry.common.journal_failure }
    {
        let common = self.common;
        (common.journal_failure, common.watchers)
    }

    /// The millisecond of the loop's clock.
    pub(crate) fn now(&self) -> u64 {
        self.common.clock.millis()
    }

    // ---- Coming and going.

    /// Adds a newcomer. The system is to report, to whom this registers, when it may be read and written. Returns whether there was room.
    pub(crate) fn enters(&mut self, stream: TcpStream, registry: &Registry) -> bool {
        let Ok(number) = self.common.service.connect() else {
            return false;
        };
        let mut client = Client::new(stream, number, self.now());
        let token = Token(number as usize);
        let interest = Interest::READABLE | Interest::WRITABLE;
        let registered = registry.register(&mut client.stream, token, interest);
        if registered.is_err() || self.each.insert(number, client).is_err() {
            self.common.service.disconnect(number);
            return false;
        }
        self.common.coming = self.common.coming.saturating_add(1);
        true
    }

    /// Does this for the connection of this number, if it is still there: here it is looked up, and whatever is done for it reaches it and
    /// no other. Only what comes of that is done here: others may be due a turn before it has another, or it goes.
    fn attend<F>(&mut self, number: u64, act: F)
    where
        F: FnOnce(&mut Common<'a, R, W>, &mut Client) -> Result<(), Ends>,
        requires { F.IsAlwaysCallable act }
        ensures { OthersStay number self.old.each.entries self.new.each.entries }
    {
        let Some(client) = self.each.get_mut(&number) else {
            return;
        };
        match act(&mut self.common, client) {
            Ok(()) => {}
            Err(Ends::FarAhead) => {
                self.spreads_changes();
                if let Some(client) = self.each.get_mut(&number) {
                    self.common.stands_due_as(client, Rank::Follower);
                }
            }
            Err(why) => self.remove(number, why),
        }
    }

    /// A connection goes.
    fn remove(&mut self, number: u64, why: Ends)
        ensures gone { client_in self.new.each.entries number ≡ None }
        ensures others { OthersStay number self.old.each.entries self.new.each.entries }
    {
        if let Some(client) = self.each.swap_remove(&number) {
            self.common.lets_go(client, why);
        }
    }
}
