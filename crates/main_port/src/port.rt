//! The main port, and how it is served.

ghost use Rattle.std.specs.Prelude.{◌≡◌, ◌≤◌, ◌+◌, IfErr, IfOk, IfSome, false, is_some, true};

use crate::acceptor::Acceptor;
use crate::boards::Boards;
use crate::clients::Clients;
use crate::common::Common;
use crate::event_loop::EventLoop;
use crate::serve_end::ServeEnd;
use crate::settings::Settings;
use crate::watchers::Watchers;
use chained_lines::StableFile;
use mio::Interest;
use mio::unix::SourceFd;
use relay_durable::DurableService;
use server_loop::{LISTENER, Log, LoopClock, Poller, Reserve, watch_input};
use std::alloc::Global;
use std::io;
use std::io::StdinLock;
use std::marker::Model;
use std::net::{Net, TcpListener};
use std::os::fd::AsRawFd;
use std::sync::atomic::{AtomicBool, Ordering};
use std::sync::{Arc, Wait};
use std::thread::Threads;
use std::time::Clock;

/// The main port, ready to be served. Contracts see how it is served.
#[derive(Drop)]
pub struct MainPort {
    alloc: Global,
    settings: Settings,
    /// What the loop knows of boards: the room for it is taken before anybody is served.
    boards: Boards,
    poller: Poller,
    listener: (TcpListener, Reserve),
    clock: LoopClock,
    /// Whether standard input has ended.
    has_input_ended: Arc<AtomicBool, Global>,
}

impl Model for MainPort {
    ghost use Rattle.main_port.specs.declared.settings.Settings.{Settings};

    ghost Value = { Settings };

    ghost view = { λ p. p.settings };
}

impl MainPort {
    /// The main port at this listener, which is made non-blocking. All that it takes to serve is taken here.
    ///
    /// # Errors
    ///
    /// As the system's own calls, or there was no memory.
    pub fn open<N: Net + Clock>(
        net: &N,
        alloc: Global,
        listener: TcpListener,
        settings: &Settings,
    ) -> io::Result<MainPort>
        ensures { IfOk result (λ port. port ≡ settings.now) }
    {
        let poller = Poller::new(net, alloc)?;
        let boards = Boards::new(alloc, &settings.limits)?;
        listener.set_nonblocking(true)?;
        let descriptor = listener.as_raw_fd();
        let registry = poller.poll.registry();
        registry.register(&mut SourceFd(&descriptor), LISTENER, Interest::READABLE)?;
        let reserve = Reserve::new(&listener);
        Ok(MainPort {
            alloc,
            settings: *settings,
            boards,
            poller,
            listener: (listener, reserve),
            clock: LoopClock::begin(net)?,
            has_input_ended: Arc::new(alloc, AtomicBool::new(false))?,
        })
    }

    /// Accepts as many connections as the settings say, or without that number as many as come, and serves them all in one loop, by this
    /// service. Returns once all of them have gone, and gives those who watch back.
    ///
    /// If serving ends with standard input, it then accepts no more connections, and all boards end as abandoned. Followers get what they
    /// have not had, the other peers are told by the close code 1001, and four seconds later it stops waiting for anybody.
    ///
    /// With a journal no answer is written, and nobody who watches is told anything, before all that boards have is on the disk. At its end
    /// serving ends no board to which an operator can come back. All peers are told by the close code 1001, and these games go on at the
    /// next start.
    ///
    /// # Errors
    ///
    /// The journal failed, or there was no memory for it. From then on nothing was written to anybody, and all connections have ended
    /// without a close.
    pub fn attend<R, W>(
        self,
        rt: &R,
        service: DurableService<StableFile>,
        watchers: W,
        log: &Log,
    ) -> (io::Result<ServeEnd>, W)
    where
        R: Input<Reader = StdinLock<'static>>
            + Threads
            + Wait
            + Clock
            + Clone
            + Send
            + Drop
            + 'static,
        W: Watchers + Drop,
        ensures most { IfOk result.0 (λ end. IfSome self.most (λ n. end.served + end.failed ≤ n)) }
        ensures all { self.until_input_ends ≡ false → IfOk result.0 (λ end. IfSome self.most (λ n. end.served + end.failed ≡ n)) }
        ensures failed { IfErr result.0 (λ error. is_some service.scribe ≡ true) }
    {
        let MainPort {
            alloc,
            settings,
            boards,
            mut poller,
            listener,
            clock,
            has_input_ended,
        } = self;
        // If nobody can watch the input, serving ends at once.
        if settings.until_input_ends && watch_input(rt, &has_input_ended, &poller.waker).is_none() {
            has_input_ended.store(true, Ordering::SeqCst);
        }
        let common = Common::new(rt, alloc, service, &settings, boards, clock, watchers, log);
        let clients = Clients::new(common);
        let acceptor = Acceptor::new(listener, &settings, &has_input_ended, log);
        EventLoop::new(clients, acceptor).run(&mut poller)
    }
}
