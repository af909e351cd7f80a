//! A loop that serves connections of a port.

use crate::board_table::BoardTable;
use crate::clients::Clients;
use crate::common::Common;
use crate::feed::Feed;
use crate::port::Port;
use c960_game::Limits;
use mio::event::Event;
use mio::{Registry, Token};
use server_loop::{
    Arrival, LISTENER, LoopClock, LoopWaker, MOST_EVENTS, MOST_NEWCOMERS, Poller, Reserve, WAKER,
};
use slab::Slab;
use std::alloc::{AllocError, Global};
use std::io;
use std::net::Net;
use std::sync::{Arc, Wait};
use std::time::{Clock, Duration};

/// How many milliseconds a turn waits at most.
const TURN_MILLIS: u64 = 1000;

/// How many seconds connections have to leave once the port closes.
const MOST_CLOSING_SECONDS: u64 = 4;

/// A loop that serves connections of a port, ready to run.
#[derive(Drop)]
pub struct EventLoop {
    alloc: Global,
    poller: Poller,
    acceptor: usize,
    boards: BoardTable,
}

impl EventLoop {
    /// A loop of this port, and the feed by which it is told of boards, with these limits.
    ///
    /// # Errors
    ///
    /// As the system's own calls, or there was no memory.
    pub fn new<N: Net>(
        net: &N,
        alloc: Global,
        port: &mut Port,
        limits: Limits,
    ) -> io::Result<(EventLoop, Feed)> {
        let poller = Poller::new(net, alloc)?;
        let (feed, boards) = Feed::new(alloc, limits)?;
        let event_loop = EventLoop {
            alloc,
            acceptor: port.add(poller.poll.registry())?,
            poller,
            boards,
        };
        Ok((event_loop, feed))
    }

    /// Takes in what it was told so far. What it was told before it runs is known to the first who come.
    ///
    /// # Errors
    ///
    /// There was no memory.
    pub fn take_in(&mut self) -> Result<(), AllocError> {
        self.boards.take_in()
    }

    /// What wakes it: to be called when it was told anything, or its port closes.
    pub fn waker(&self) -> &Arc<LoopWaker, Global> {
        &self.poller.waker
    }

    /// Serves connections of its port until the port closes and they have gone, or until a while after that.
    ///
    /// # Errors
    ///
    /// The clock or the system's own call fails.
    pub fn run<R: Clock + Wait>(self, rt: &R, port: &Port) -> io::Result<()> {
        let acceptor = self.acceptor;
        let served = self.serve(rt, port);
        port.ends(acceptor);
        served
    }

    /// Serves connections. At the end it leaves its acceptor as it is.
    fn serve<R: Clock + Wait>(self, rt: &R, port: &Port) -> io::Result<()> {
        let mut poller = self.poller;
        let clock = LoopClock::begin(rt)?;
        let common = Common::new(self.alloc, port, self.acceptor, clock, self.boards);
        let mut turns = Turns {
            clients: Clients {
                common,
                each: Slab::new(self.alloc),
            },
            reserve: Reserve::new(&port.listener),
            has_newcomers: true,
            looked_at: 0,
            ends_at: None,
        };
        for _ in rt.forever() {
            poller.wait(turns.most_wait())?;
            if turns.take(rt, &poller) {
                return Ok(());
            }
        }
        unreachable!()
    }
}

/// The turns of a loop.
#[derive(Drop)]
struct Turns<'a> {
    clients: Clients<'a>,
    reserve: Reserve,
    /// Whether there may be newcomers that the system does not report again.
    has_newcomers: bool,
    /// The second by which clients were last looked at, once a second. Everything that they had sent by then had been heard, or was
    /// reported in that turn, but for those that were not heard then.
    looked_at: u64,
    /// The second in which the loop ends even if clients remain, once clients were told that the port closes.
    ends_at: Option<u64>,
}

impl<'a> Turns<'a> {
    /// How long the next turn waits at most.
    fn most_wait(&self) -> Duration {
        let common = &self.clients.common;
        let has_to_close = common.port.is_closing() && self.ends_at.is_none();
        if self.has_newcomers || !common.unread.is_empty() || has_to_close {
            Duration::ZERO
        } else {
            Duration::from_millis(TURN_MILLIS)
        }
    }

    /// Handles what the system reported, and what is due. Returns whether it was the last turn.
    fn take<C: Clock>(&mut self, clock: &C, poller: &Poller) -> bool {
        let asked = self.clients.common.now();
        self.clients.common.clock.look(clock);
        let began = self.clients.common.now();
        // This comes before looking: whoever wakes the loop from now on wakes it again.
        poller.waker.reset();
        // Once the port closes no board changes any more, so what is told then is the last.
        let is_closing = self.clients.common.port.is_closing();
        self.clients.common.take_in_events();
        self.clients.hear_unread();
        let told = poller.events.iter().len();
        for event in poller.events.iter() {
            self.clients.common.clock.look(clock);
            self.handle(event);
        }
        self.clients.common.clock.look(clock);
        self.accept(poller.poll.registry(), told);
        self.clients.common.look_for_news();
        self.clients.tell();
        // The system has reported everything that had arrived when it was asked, unless that was too much. However long a turn took, or the
        // program was suspended, no client is dropped for what it had sent in time.
        if told < MOST_EVENTS && asked > self.looked_at {
            self.looked_at = asked;
            self.clients.common.drop_audiences();
            self.clients
                .attend_all(|common, client| common.look_at(client, asked));
            // An accept that failed is tried again.
            self.has_newcomers = true;
        }
        is_closing && self.is_over(began)
    }

    /// Handles what the system reported.
    fn handle(&mut self, event: &Event) {
        match event.token() {
            LISTENER => self.has_newcomers = true,
            WAKER => {}
            Token(key) => {
                let clients = &mut self.clients;
                if event.is_writable() {
                    clients.attend(key, |common, client| common.send(client));
                }
                if event.is_readable() {
                    let has_ended = event.is_read_closed();
                    // One that is to be read on waits for that.
                    clients.attend(key, |common, client| match client.is_unread {
                        true => Ok(()),
                        false => common.hear(client, has_ended),
                    });
                }
                clients.tell();
            }
        }
    }

    /// Accepts newcomers while this loop does, but no more of them than the system reported events. An accept with nobody waiting takes as
    /// long as any other, so it is left to the system to report whether somebody still waits.
    fn accept(&mut self, registry: &Registry, told: usize) {
        let (port, acceptor) = (self.clients.common.port, self.clients.common.acceptor);
        for _ in 0..told.clamp(1, MOST_NEWCOMERS) {
            if !self.has_newcomers || !port.accepts(acceptor) {
                break;
            }
            match self.reserve.accept(&port.listener) {
                Arrival::Newcomer(stream) => {
                    self.clients.enters(registry, stream);
                    port.even_out(acceptor);
                }
                Arrival::TurnedAway => {}
                Arrival::Nobody | Arrival::Failed => self.has_newcomers = false,
            }
        }
        self.has_newcomers = self.has_newcomers
            && port.accepts(acceptor)
            && !port.tells_again(acceptor);
    }

    /// The port closes. Clients are told, and then waited for. Returns whether this is over.
    fn is_over(&mut self, now: u64) -> bool {
        if self.ends_at.is_none() {
            self.clients
                .attend_all(|common, client| common.tell_of_the_end(client));
            self.ends_at = Some(now.saturating_add(MOST_CLOSING_SECONDS));
        }
        self.clients.each.is_empty() || self.ends_at.is_some_and(|ends_at| now >= ends_at)
    }
}
