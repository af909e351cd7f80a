//! The port that several loops serve. One of them accepts newcomers at a time, the one with the fewest connections.

use mio::unix::SourceFd;
use mio::{Interest, Registry};
use server_loop::LISTENER;
use std::alloc::{AllocError, Global};
use std::io;
use std::io::ErrorKind;
use std::net::TcpListener;
use std::os::fd::AsRawFd;
use std::sync::Arc;
use std::sync::atomic::{AtomicBool, AtomicU32, AtomicUsize, Ordering};

/// How many connections more than another a loop may have while it accepts: this many, and one more for each `PART_AHEAD` connections of
/// the other. To let another one accept takes three calls of the system, and wakes it.
const MOST_AHEAD: u32 = 4;

const PART_AHEAD: u32 = 16;

/// To the loop that accepts, newcomers are reported.
const ACCEPTS: Interest = Interest::READABLE;

/// To another one nothing is reported, since no listener is ever writable.
const RESTS: Interest = Interest::WRITABLE;

/// A port whose newcomers several loops share evenly.
#[derive(Drop)]
pub struct Port {
    pub(crate) listener: TcpListener,
    /// Those of the loops, of which this one accepts.
    acceptors: Vec<Acceptor>,
    accepting: AtomicUsize,
    /// How many connections there may be, and how many there are.
    most: u32,
    count: Arc<AtomicU32, Global>,
    /// For how many seconds a connection that asks for nothing is waited for.
    pub(crate) most_idle: Option<u64>,
    is_closing: AtomicBool,
}

/// What reports newcomers to a loop.
#[derive(Drop)]
struct Acceptor {
    registry: Registry,
    /// How many connections the loop has. A loop that has ended counts as having the greatest number.
    clients: AtomicU32,
}

impl Port {
    /// A port at this listener, which is made non-blocking, for `most` spectators at once. A connection that asks for nothing goes after
    /// `most_idle` seconds, or never. No loop serves the port yet.
    ///
    /// # Errors
    ///
    /// As the system's own call, or there was no memory.
    pub fn new(
        alloc: Global,
        listener: TcpListener,
        most: u32,
        most_idle: Option<u64>,
    ) -> io::Result<Port> {
        listener.set_nonblocking(true)?;
        Ok(Port {
            listener,
            acceptors: Vec::new(alloc),
            accepting: AtomicUsize::new(0),
            most,
            count: Arc::new(alloc, AtomicU32::new(0))?,
            most_idle,
            is_closing: AtomicBool::new(false),
        })
    }

    /// How many connections there are, for others to read.
    ///
    /// # Errors
    ///
    /// There was no memory.
    pub fn count(&self) -> Result<Arc<AtomicU32, Global>, AllocError> {
        Arc::try_clone(&self.count).map_err(|_| AllocError)
    }

    /// No more clients are accepted, and the loops end once theirs have gone, or after a while. The loops have yet to be woken.
    pub fn close(&self) {
        self.is_closing.store(true, Ordering::SeqCst);
    }

    /// Whether it is closing.
    pub(crate) fn is_closing(&self) -> bool {
        self.is_closing.load(Ordering::SeqCst)
    }

    // ---- Coming and going.

    /// Counts a newcomer that came by this acceptor, and returns whether there is room for it.
    pub(crate) fn enters(&self, at: usize) -> bool {
        if let Some(acceptor) = self.acceptors.get(at) {
            acceptor.clients.fetch_add(1, Ordering::SeqCst);
        }
        self.count.fetch_add(1, Ordering::SeqCst) < self.most
    }

    /// Counts off a connection that goes and had come by this acceptor.
    pub(crate) fn leaves(&self, at: usize) {
        if let Some(acceptor) = self.acceptors.get(at) {
            acceptor.clients.fetch_sub(1, Ordering::SeqCst);
        }
        self.count.fetch_sub(1, Ordering::SeqCst);
    }

    // ---- Which loop accepts.

    /// Adds the acceptor of the loop to which this registry reports newcomers. The first one accepts. Returns its number.
    ///
    /// # Errors
    ///
    /// As the system's own calls, or there was no memory.
    pub(crate) fn add(&mut self, registry: &Registry) -> io::Result<usize> {
        let at = self.acceptors.len();
        let interest = if at == 0 { ACCEPTS } else { RESTS };
        let listener = self.listener.as_raw_fd();
        registry.register(&mut SourceFd(&listener), LISTENER, interest)?;
        self.acceptors.push(Acceptor {
            registry: registry.try_clone()?,
            clients: AtomicU32::new(0),
        })?;
        Ok(at)
    }

    /// Whether newcomers come by this acceptor.
    pub(crate) fn accepts(&self, at: usize) -> bool {
        !self.is_closing() && self.accepting.load(Ordering::SeqCst) == at
    }

    /// If there are far more connections here than elsewhere, the loop with the fewest accepts from now on. It is told at once if somebody
    /// waits. Nothing is changed after that, since that loop may have let another one accept by then.
    pub(crate) fn even_out(&self, at: usize) {
        let others = (0..self.acceptors.len()).map(|other| (self.clients(other), other));
        let (fewest, next) = others.min().unwrap_or((u32::MAX, at));
        let most_ahead = MOST_AHEAD + fewest / PART_AHEAD;
        if self.clients(at).saturating_sub(fewest) <= most_ahead || self.set(at, RESTS).is_err() {
            return;
        }
        self.accepting.store(next, Ordering::SeqCst);
        if self.set(next, ACCEPTS).is_err() {
            self.accepting.store(at, Ordering::SeqCst);
            let _ = self.set(at, ACCEPTS);
        }
    }

    /// Makes the system report again whether somebody waits to be accepted by this one. Returns whether it does.
    pub(crate) fn tells_again(&self, at: usize) -> bool {
        self.set(at, ACCEPTS).is_ok()
    }

    /// The loop of this acceptor has ended: nobody comes by it any more.
    pub(crate) fn ends(&self, at: usize) {
        if let Some(acceptor) = self.acceptors.get(at) {
            acceptor.clients.store(u32::MAX, Ordering::SeqCst);
        }
        if self.accepting.load(Ordering::SeqCst) == at {
            self.even_out(at);
        }
    }

    /// How many connections the loop of this one has.
    fn clients(&self, at: usize) -> u32 {
        self.acceptors.get(at).map_or(u32::MAX, |acceptor| acceptor.clients.load(Ordering::SeqCst))
    }

    /// Sets what is reported to the loop of this one.
    fn set(&self, at: usize, interest: Interest) -> io::Result<()> {
        let registry = &self.acceptors.get(at).ok_or(ErrorKind::NotFound)?.registry;
        let listener = self.listener.as_raw_fd();
        registry.reregister(&mut SourceFd(&listener), LISTENER, interest)
    }
}
