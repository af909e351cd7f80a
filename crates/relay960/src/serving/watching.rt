//! The watch port, next to the relay's main port, if there is one.

use crate::serving::fault::ServeFault;
use crate::serving::service::most_idle;
use c960_game::Limits;
use main_port::Watchers;
use relay_hall::Hall;
use relay960_words::{Service, WatchPort};
use server_loop::LoopWaker;
use std::alloc::{AllocError, Global};
use std::io;
use std::io::ErrorKind;
use std::net::{Net, SocketAddr, TcpListener};
use std::sync::atomic::AtomicU32;
use std::sync::{Arc, Wait};
use std::thread::{Builder, JoinHandle, Threads};
use std::time::Clock;
use watch_port::{EventLoop, Feed, Port, Publisher};

/// How many bytes the stack of a loop's thread has. JSON of the greatest nesting, 127, takes some 144 KiB of it, and a request with 64
/// header fields less.
const STACK_BYTES: usize = 512 * 1024;

/// How often loops are told of the boards of a journal, and take in what they were told, before they run: more often than the greatest
/// number of boards and of moves takes, of which a loop is told 4,096 at a time.
const MOST_TELLINGS: u32 = 8192;

/// A watch port that is listening, and its loops, which are not running yet. Without a watch port there are none.
#[derive(Drop)]
pub(super) struct Watch {
    port: Option<Arc<Port, Global>>,
    loops: Vec<EventLoop>,
    feeds: Vec<Feed>,
}

/// A running loop, and its waker.
#[derive(Drop)]
struct Running {
    handle: JoinHandle<()>,
    waker: Arc<LoopWaker, Global>,
}

/// The running loops, and what tells them of boards.
#[derive(Drop)]
pub(super) struct Loops {
    port: Option<Arc<Port, Global>>,
    publisher: Publisher,
    running: Vec<Running>,
    /// Whether all boards were ended.
    has_ended: bool,
}

impl Watch {
    /// Listens on the watch port, if there is to be one.
    ///
    /// # Errors
    ///
    /// The server cannot listen there, or there was no memory.
    pub(super) fn open<R: Net>(
        rt: &R,
        alloc: Global,
        service: &Service,
    ) -> Result<Watch, ServeFault<'static>> {
        let Some(asked) = &service.watch else {
            return Ok(Watch {
                port: None,
                loops: Vec::new(alloc),
                feeds: Vec::new(alloc),
            });
        };
        match open(rt, alloc, asked, most_idle(service.idle), service.limits) {
            Ok(watch) => Ok(watch),
            Err(error) => Err(fault_of(asked.address, error)),
        }
    }

    /// How many spectators there are, if there is a watch port.
    pub(super) fn count(&self) -> Result<Option<Arc<AtomicU32, Global>>, ServeFault<'static>> {
        match &self.port {
            Some(port) => Ok(Some(port.count()?)),
            None => Ok(None),
        }
    }

    /// Starts the loops, each on a thread of its own. The boards that there are, those of a journal, are told them before: whoever watched
    /// them may come back at once, and would take a board that lacks moves, or is not there, for another one.
    ///
    /// # Errors
    ///
    /// There was no memory, or no thread. The loops that were started are ended.
    pub(super) fn start<R>(
        self,
        rt: &R,
        alloc: Global,
        hall: &Hall,
    ) -> Result<Loops, ServeFault<'static>>
    where
        R: Threads + Wait + Clock + Clone + Send + Drop + 'static,
    {
        let Watch {
            port,
            mut loops,
            feeds,
        } = self;
        let mut started = Loops {
            port,
            publisher: Publisher::new(alloc, feeds),
            running: Vec::new(alloc),
            has_ended: false,
        };
        started.tell_all(hall, &mut loops)?;
        for event_loop in loops {
            let is_started = match spawn(rt, &started.port, event_loop) {
                Some(running) => started.running.push(running).is_ok(),
                None => false,
            };
            if !is_started {
                started.end(rt);
                return Err(ServeFault::OutOfMemory);
            }
        }
        Ok(started)
    }
}

/// Listens on the watch port.
///
/// # Errors
///
/// As the system's own calls, or there was no memory.
fn open<R: Net>(
    rt: &R,
    alloc: Global,
    asked: &WatchPort,
    most_idle: Option<u64>,
    limits: Limits,
) -> io::Result<Watch> {
    let listener = TcpListener::from(mio::net::TcpListener::bind(rt, asked.address)?);
    let mut port = Port::new(alloc, listener, asked.most, most_idle)?;
    let (mut loops, mut feeds) = (Vec::new(alloc), Vec::new(alloc));
    for _ in 0..asked.threads {
        let (event_loop, feed) = EventLoop::new(rt, alloc, &mut port, limits)?;
        loops.push(event_loop)?;
        feeds.push(feed)?;
    }
    let port = Some(Arc::new(alloc, port)?);
    Ok(Watch { port, loops, feeds })
}

/// Why the port at this address, or a loop of it, could not be created.
fn fault_of(address: SocketAddr, error: io::Error) -> ServeFault<'static> {
    match error.kind() {
        ErrorKind::OutOfMemory => ServeFault::OutOfMemory,
        _ => ServeFault::at(address, error),
    }
}

/// Starts a loop.
fn spawn<R>(rt: &R, port: &Option<Arc<Port, Global>>, event_loop: EventLoop) -> Option<Running>
where
    R: Threads + Wait + Clock + Clone + Send + Drop + 'static,
{
    let own = rt.clone().ok()?;
    let port = Arc::try_clone(port.as_ref()?).ok()?;
    let waker = Arc::try_clone(event_loop.waker()).ok()?;
    let handle = Builder::new()
        .stack_size(STACK_BYTES)
        .spawn(rt, move || {
            let _ = event_loop.run(&own, &port);
        })
        .ok()?;
    Some(Running { handle, waker })
}

impl Loops {
    /// Tells loops that are not running yet of all boards, and has them take that in.
    ///
    /// # Errors
    ///
    /// There was no memory.
    fn tell_all(&mut self, hall: &Hall, loops: &mut Vec<EventLoop>) -> Result<(), AllocError> {
        for at in 0..hall.len() {
            self.publisher.marks(at);
        }
        for _ in 0..MOST_TELLINGS {
            let are_told = self.publisher.publish_again(hall);
            for event_loop in loops.iter_mut() {
                event_loop.take_in()?;
            }
            if are_told {
                return Ok(());
            }
        }
        Err(AllocError)
    }

    /// Ends the loops once spectators have what they are due, or after a while.
    pub(super) fn end<R: Threads>(self, rt: &R) {
        self.close();
        for running in self.running {
            let () = running.handle.join(rt);
        }
    }

    /// Closes the port, and wakes all loops.
    fn close(&self) {
        if let Some(port) = &self.port {
            port.close();
        }
        self.wake_all();
    }

    fn wake_all(&self) {
        for running in self.running.iter() {
            running.waker.wake();
        }
    }
}

impl Watchers for Loops {
    fn changed(&mut self, at: usize) {
        self.publisher.marks(at);
    }

    fn tell(&mut self, hall: &Hall) {
        self.publisher.publish(hall);
    }

    /// Once all loops were told that all boards were ended, the port closes: its spectators need not wait until connections of the main
    /// port have gone.
    fn wake(&mut self, hall: &Hall) -> bool {
        let are_told = self.publisher.publish_again(hall);
        if self.publisher.take_fresh() {
            self.wake_all();
        }
        if self.has_ended && are_told {
            self.has_ended = false;
            self.close();
        }
        are_told
    }

    fn has_ended(&mut self) {
        self.has_ended = true;
    }
}
