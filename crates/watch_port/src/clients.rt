//! All connections of a loop: how they come and go, and what is due for which.

use crate::client::{Client, Gone};
use crate::common::Common;
use crate::watch_connection::WatchConnection;
use mio::net::TcpStream;
use mio::{Interest, Registry, Token};
use server_loop::Deadlines;
use slab::Slab;
use std::mem;

/// All connections of a loop, with what they share. Each is known by its key, which is also the token of its socket.
#[derive(Drop)]
pub(crate) struct Clients<'a> {
    pub(crate) common: Common<'a>,
    pub(crate) each: Slab<Client>,
}

impl<'a> Clients<'a> {
    /// Adds a newcomer. The system is to report when it may be read and written.
    pub(crate) fn enters(&mut self, registry: &Registry, mut stream: TcpStream) {
        let key = self.each.vacant_key();
        let interest = Interest::READABLE | Interest::WRITABLE;
        let Ok(()) = registry.register(&mut stream, Token(key), interest) else {
            return;
        };
        let common = &self.common;
        let client = Client {
            stream,
            key,
            connection: WatchConnection::new(common.alloc),
            deadlines: Deadlines::new(common.now()),
            has_room: common.port.enters(common.acceptor),
            is_draining: false,
            is_full: false,
            is_unread: false,
        };
        if self.each.insert(client).is_err() {
            common.port.leaves(common.acceptor);
        }
    }

    /// Does what is due for the client of this key, if it is still there: here it is looked up, and whatever is done for it reaches it and
    /// no other. It goes if that fails.
    pub(crate) fn attend<F>(&mut self, key: usize, act: F)
    where
        F: FnOnce(&mut Common<'a>, &mut Client) -> Result<(), Gone>,
        requires { F.IsAlwaysCallable act }
    {
        let Some(client) = self.each.get_mut(key) else {
            return;
        };
        if act(&mut self.common, client).is_err() {
            self.common.watches_no_more(client);
            self.common.port.leaves(self.common.acceptor);
            let _ = self.each.try_remove(key);
        }
    }

    /// Does what is due for all.
    pub(crate) fn attend_all<F>(&mut self, act: F)
    where
        F: Fn(&mut Common<'a>, &mut Client) -> Result<(), Gone>,
        requires { F.IsAlwaysCallable act }
    {
        for key in 0..self.each.capacity() {
            self.attend(key, &act);
        }
    }

    /// Reads the clients that are to be read on.
    pub(crate) fn hear_unread(&mut self) {
        let alloc = self.common.alloc;
        for key in mem::replace(&mut self.common.unread, Vec::new(alloc)) {
            self.attend(key, |common, client| common.hear(client, true));
            self.tell();
        }
    }

    /// Tells clients the news that was found meanwhile. One whose connection takes no more now waits for it.
    pub(crate) fn tell(&mut self) {
        let alloc = self.common.alloc;
        for key in mem::replace(&mut self.common.untold, Vec::new(alloc)) {
            self.attend(key, |common, client| match client.deadlines.waits_since {
                Some(_) => Ok(()),
                None => common.send(client),
            });
        }
    }
}
