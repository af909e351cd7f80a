//! What all connections of a loop share: the boards, who watches them, and the clock. What is done here for a client can reach no other.

mod hearing;
mod writing;

use crate::audience::Audience;
use crate::board_list::BoardList;
use crate::board_table::BoardTable;
use crate::client::Client;
use crate::port::Port;
use crate::watch_connection::{Doing, Watching};
use c960_game::Refusal;
use relay_core::BoardName;
use relay_messages::Decoder;
use server_loop::LoopClock;
use slab::Slab;
use std::alloc::{AllocError, Global};
use std::mem;

/// What all connections of a loop share.
#[derive(Drop)]
pub(crate) struct Common<'a> {
    pub(crate) alloc: Global,
    pub(crate) port: &'a Port,
    /// The number of the acceptor by which they come.
    pub(crate) acceptor: usize,
    pub(crate) clock: LoopClock,
    boards: BoardTable,
    audiences: Slab<Audience>,
    list: BoardList,
    decoder: Decoder,
    /// Clients that are to be read on although the system reports nothing of them.
    pub(crate) unread: Vec<usize>,
    /// Clients that have yet to be sent what was found to be new.
    pub(crate) untold: Vec<usize>,
}

impl<'a> Common<'a> {
    /// Nobody shares it yet. These are the boards that are shown.
    pub(crate) fn new(
        alloc: Global,
        port: &'a Port,
        acceptor: usize,
        clock: LoopClock,
        boards: BoardTable,
    ) -> Common<'a> {
        Common {
            alloc,
            port,
            acceptor,
            clock,
            boards,
            audiences: Slab::new(alloc),
            list: BoardList::new(alloc),
            decoder: Decoder::new(alloc),
            unread: Vec::new(alloc),
            untold: Vec::new(alloc),
        }
    }

    /// The second of the loop's clock.
    pub(crate) fn now(&self) -> u64 {
        self.clock.passed().as_secs()
    }

    // ---- Who watches what.

    /// Lets a client follow a board from a place of its log, or from its present length, or refuses.
    fn follow(
        &mut self,
        client: &mut Client,
        name: &BoardName,
        from: Option<u16>,
    ) -> Result<Option<Refusal>, AllocError> {
        // It may have read of a board or a move elsewhere since this turn began.
        self.take_in_events();
        let Some(board) = self.boards.find(name) else {
            return Ok(Some(Refusal::NoSuchBoard));
        };
        let at = match self.audiences.iter().find(|(_, it)| it.board == board) {
            Some((at, _)) => at,
            None => self.audiences.insert(Audience::new(self.alloc, board))?,
        };
        let Some(audience) = self.audiences.get_mut(at) else {
            return Ok(Some(Refusal::NoSuchBoard));
        };
        audience.refresh(&self.boards, &mut self.untold)?;
        let Some(spectator) = audience.join(&self.boards, from)? else {
            return Ok(Some(Refusal::NotYet));
        };
        audience.spectators.insert(client.key)?;
        client.connection.watch(at, spectator);
        Ok(None)
    }

    /// Lets a client watch all boards from now on.
    fn watch_all(&mut self, client: &mut Client) -> Result<(), AllocError> {
        self.take_in_events();
        client.connection.doing = Doing::WatchesAll(0);
        self.list.spectators.insert(client.key)?;
        // The others are told at the end of the turn, of all that has changed by then.
        self.list
            .make_texts(&self.boards, self.clock.passed().as_secs())
    }

    /// A client no longer watches anything.
    pub(crate) fn watches_no_more(&mut self, client: &mut Client) {
        match mem::replace(&mut client.connection.doing, Doing::Asks) {
            Doing::Watches(Watching { audience, .. }) => {
                if let Some(audience) = self.audiences.get_mut(audience) {
                    audience.spectators.swap_remove(&client.key);
                }
            }
            Doing::WatchesAll(_) => {
                self.list.spectators.swap_remove(&client.key);
            }
            Doing::Comes(_) | Doing::Asks => {}
        }
    }

    /// Drops the audiences that are empty, and their tapes with them. It is called once a second. If a tape went with its last spectator,
    /// it would be made again for each of several that come and go one after another.
    pub(crate) fn drop_audiences(&mut self) {
        self.audiences
            .retain(|_, audience| !audience.spectators.is_empty());
    }

    // ---- News.

    /// Takes in what the loop was told of boards. Without memory for that the boards stay as they are until the next turn.
    pub(crate) fn take_in_events(&mut self) {
        let _ = self.boards.take_in();
    }

    /// Looks for news of the boards that are watched, and adds who is to be told to `untold`. If there is no memory for some of it, that is
    /// tried again in the next turn.
    pub(crate) fn look_for_news(&mut self) {
        for at in 0..self.audiences.capacity() {
            if let Some(audience) = self.audiences.get_mut(at) {
                let _ = audience.refresh(&self.boards, &mut self.untold);
            }
        }
        let now = self.now();
        let _ = self.list.refresh(&self.boards, now, &mut self.untold);
    }
}
